//! A directory of the records `b` of file 7 and `ab` of file 9 is read, over any blocks and any source.
ghost use Rattle.std.specs.Prelude.{◌≡◌};
ghost use Rattle.fo_dir_read.specs.Names.{OfRecords};

use fo_dir_list::{count, leaf_for, next, numbered};
use fo_dir_read::{Found, lookup};
use fo_image::Record;
use fo_ports::{BlockError, Blocks, Bytes};
use std::alloc::Global;

/// Whether the fields of a record are those given to the one with this number.
fn is_record_of(record: &Record, number: u32) -> bool {
    (record.number, record.slot, record.generation) == (number, number, 1)
        && (record.mode, record.atime, record.mtime) == (0x1a4, 5, 6)
        && record.uid.as_slice() == b"adm".as_slice()
}

/// Whether the record with this number was found in this leaf; 0 stands for none.
fn is_found(found: Option<Found>, leaf: u32, number: u32) -> bool {
    match found {
        Some(f) => f.leaf == leaf && is_record_of(&f.record, number),
        None => number == 0,
    }
}

/// Whether the name is found in this leaf with this number; 0 stands for none.
fn finds<B: Blocks, S: Bytes<B>>(
    alloc: Global,
    records: &mut S,
    on: &mut B,
    rank: u32,
    name: &[u8],
    leaf: u32,
    number: u32,
) -> Result<bool, BlockError>
    requires over { S.is_over records.old on.old }
    requires form { OfRecords (S.form records.old) rank }
    ensures over { S.is_over records.new on.new }
    ensures form { S.form records.new ≡ S.form records.old }
{
    match lookup(alloc, records, on, rank, name) {
        Ok(found) => Ok(is_found(found, leaf, number)),
        Err(why) => Err(why),
    }
}

/// Whether the number that is looked for is found in this leaf with this number; 0 stands for none.
fn finds_number<B: Blocks, S: Bytes<B>>(
    alloc: Global,
    records: &mut S,
    on: &mut B,
    rank: u32,
    sought: u32,
    leaf: u32,
    number: u32,
) -> Result<bool, BlockError>
    requires over { S.is_over records.old on.old }
    requires form { OfRecords (S.form records.old) rank }
    ensures over { S.is_over records.new on.new }
    ensures form { S.form records.new ≡ S.form records.old }
{
    match numbered(alloc, records, on, rank, sought) {
        Ok(found) => Ok(is_found(found, leaf, number)),
        Err(why) => Err(why),
    }
}

/// Whether a record has this name; the empty one stands for none.
fn is_named(found: Option<Record>, name: &[u8]) -> bool {
    match found {
        Some(record) => record.name.as_slice() == name,
        None => name.is_empty(),
    }
}

/// Whether this name comes after another; the empty one stands for none.
pub fn comes<B: Blocks, S: Bytes<B>>(
    alloc: Global,
    records: &mut S,
    on: &mut B,
    rank: u32,
    after: &[u8],
    name: &[u8],
) -> Result<bool, BlockError>
    requires over { S.is_over records.old on.old }
    requires form { OfRecords (S.form records.old) rank }
    ensures over { S.is_over records.new on.new }
    ensures form { S.form records.new ≡ S.form records.old }
{
    match next(alloc, records, on, rank, after) {
        Ok(found) => Ok(is_named(found, name)),
        Err(why) => Err(why),
    }
}

/// Whether both names are found in the first leaf, and another is not.
pub fn named<B: Blocks, S: Bytes<B>>(
    alloc: Global,
    records: &mut S,
    on: &mut B,
    rank: u32,
) -> Result<bool, BlockError>
    requires over { S.is_over records.old on.old }
    requires form { OfRecords (S.form records.old) rank }
    ensures over { S.is_over records.new on.new }
    ensures form { S.form records.new ≡ S.form records.old }
{
    let first = finds(alloc, records, on, rank, b"b", 0, 7)?;
    let second = finds(alloc, records, on, rank, b"ab", 0, 9)?;
    let none = finds(alloc, records, on, rank, b"a", 0, 0)?;
    Ok(first && second && none)
}

/// Whether both numbers are found in the first leaf, and another is not.
pub fn numbers<B: Blocks, S: Bytes<B>>(
    alloc: Global,
    records: &mut S,
    on: &mut B,
    rank: u32,
) -> Result<bool, BlockError>
    requires over { S.is_over records.old on.old }
    requires form { OfRecords (S.form records.old) rank }
    ensures over { S.is_over records.new on.new }
    ensures form { S.form records.new ≡ S.form records.old }
{
    let first = finds_number(alloc, records, on, rank, 7, 0, 7)?;
    let second = finds_number(alloc, records, on, rank, 9, 0, 9)?;
    let none = finds_number(alloc, records, on, rank, 8, 0, 0)?;
    Ok(first && second && none)
}

/// Whether `ab` comes first, then `b`, and then no name.
pub fn in_order<B: Blocks, S: Bytes<B>>(
    alloc: Global,
    records: &mut S,
    on: &mut B,
    rank: u32,
) -> Result<bool, BlockError>
    requires over { S.is_over records.old on.old }
    requires form { OfRecords (S.form records.old) rank }
    ensures over { S.is_over records.new on.new }
    ensures form { S.form records.new ≡ S.form records.old }
{
    let first = comes(alloc, records, on, rank, b"", b"ab")?;
    let second = comes(alloc, records, on, rank, b"ab", b"b")?;
    let none = comes(alloc, records, on, rank, b"b", b"")?;
    Ok(first && second && none)
}

/// Whether there are two records, which leave room for one more in their leaf.
pub fn room<B: Blocks, S: Bytes<B>>(
    records: &mut S,
    on: &mut B,
    rank: u32,
) -> Result<bool, BlockError>
    requires over { S.is_over records.old on.old }
    requires form { OfRecords (S.form records.old) rank }
{
    let two = count(records, on, rank)?;
    let first = leaf_for(records, on, rank, 40)?;
    Ok(two == 2 && first == 0)
}
