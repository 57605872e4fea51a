//! The directory is compared with what it should be.
ghost use Rattle.std.specs.Prelude.{◌≡◌, ◌≤◌, ℕ};
ghost use Rattle.fo_dir_read.specs.Names.{OfRecords};
ghost use Rattle.test_names.specs.Root.{IsInMemory, NoneComes};

use crate::expected::{Model, Standing};
use fo_base::{Bytes as Text, Memory};
use fo_dir_list::next;
use fo_dir_read::lookup;
use fo_image::Record;
use fo_ports::{BlockError, Blocks, Bytes};
use std::alloc::Global;
use test_names::{Part, name, opened};

/// The rank of the records.
const RANK: u32 = 2096;

/// The name of a number that has so many letters; the empty one where there is none.
fn text(alloc: Global, last: Option<(u32, u16)>) -> Result<Text, Memory> {
    match last {
        Some((number, letters)) => name(alloc, number, letters),
        None => Ok(Text::new(Vec::new(alloc))),
    }
}

/// Whether a record is that of a number with this name.
fn is_of(record: &Record, number: u32, name: &Text) -> bool {
    record.number == number && record.name.as_slice() == name.as_slice()
}

/// Whether a record was found just where one should be, and is that of a number with this name.
fn is_wanted(found: Option<Record>, present: bool, number: u32, name: &Text) -> bool {
    match found {
        Some(record) => present && is_of(&record, number, name),
        None => !present,
    }
}

/// Whether the name of a number with so many letters comes next behind the last one.
fn comes<B: Blocks, S: Bytes<B>>(
    alloc: Global,
    records: &mut S,
    on: &mut B,
    last: Option<(u32, u16)>,
    number: u32,
    letters: u16,
) -> Result<bool, BlockError>
    requires over { S.is_over records.old on.old }
    requires form { OfRecords (S.form records.old) 2096 }
    ensures over { S.is_over records.new on.new }
    ensures form { S.form records.new ≡ S.form records.old }
    ensures none { NoneComes (B.state on.old) → NoneComes (B.state on.new) }
    ensures keeps { B.keeps on.old on.new }
{
    let after = text(alloc, last)?;
    let wanted = name(alloc, number, letters)?;
    match next(alloc, records, on, RANK, after.as_slice()) {
        Ok(found) => Ok(is_wanted(found, true, number, &wanted)),
        Err(why) => Err(why),
    }
}

/// Whether no name comes behind the last one.
fn ends<B: Blocks, S: Bytes<B>>(
    alloc: Global,
    records: &mut S,
    on: &mut B,
    last: Option<(u32, u16)>,
) -> Result<bool, BlockError>
    requires over { S.is_over records.old on.old }
    requires form { OfRecords (S.form records.old) 2096 }
    ensures over { S.is_over records.new on.new }
    ensures form { S.form records.new ≡ S.form records.old }
    ensures none { NoneComes (B.state on.old) → NoneComes (B.state on.new) }
    ensures keeps { B.keeps on.old on.new }
{
    let after = text(alloc, last)?;
    match next(alloc, records, on, RANK, after.as_slice()) {
        Ok(found) => Ok(found.is_none()),
        Err(why) => Err(why),
    }
}

/// How many names are listed, where they are just those that should be there, in ascending order. None where they are not.
fn listed<B: Blocks, S: Bytes<B>>(
    alloc: Global,
    records: &mut S,
    on: &mut B,
    model: &Model,
) -> Result<Option<u32>, BlockError>
    requires over { S.is_over records.old on.old }
    requires form { OfRecords (S.form records.old) 2096 }
    ensures over { S.is_over records.new on.new }
    ensures form { S.form records.new ≡ S.form records.old }
    ensures none { NoneComes (B.state on.old) → NoneComes (B.state on.new) }
    ensures keeps { B.keeps on.old on.new }
{
    let mut last = None;
    let mut names: u32 = 0;
    for number in 0..model.many() {
        if let Standing::Present(letters) = model.of(number) {
            if !comes(alloc, records, on, last, number, letters)? {
                return Ok(None);
            }
            last = Some((number, letters));
            names = names.saturating_add(1);
        }
    }
    if ends(alloc, records, on, last)? {
        Ok(Some(names))
    } else {
        Ok(None)
    }
}

/// Whether a name is found just where it should be there, with the record of its number.
fn is_found<B: Blocks, S: Bytes<B>>(
    alloc: Global,
    records: &mut S,
    on: &mut B,
    number: u32,
    letters: u16,
    present: bool,
) -> Result<bool, BlockError>
    requires over { S.is_over records.old on.old }
    requires form { OfRecords (S.form records.old) 2096 }
    ensures over { S.is_over records.new on.new }
    ensures form { S.form records.new ≡ S.form records.old }
    ensures none { NoneComes (B.state on.old) → NoneComes (B.state on.new) }
    ensures keeps { B.keeps on.old on.new }
{
    let wanted = name(alloc, number, letters)?;
    match lookup(alloc, records, on, RANK, wanted.as_slice()) {
        Ok(Some(found)) => Ok(present && is_of(&found.record, number, &wanted)),
        Ok(None) => Ok(!present),
        Err(why) => Err(why),
    }
}

/// Whether the name of each number is found just where it should be there.
fn are_found<B: Blocks, S: Bytes<B>>(
    alloc: Global,
    records: &mut S,
    on: &mut B,
    model: &Model,
) -> Result<bool, BlockError>
    requires over { S.is_over records.old on.old }
    requires form { OfRecords (S.form records.old) 2096 }
    ensures over { S.is_over records.new on.new }
    ensures form { S.form records.new ≡ S.form records.old }
    ensures none { NoneComes (B.state on.old) → NoneComes (B.state on.new) }
    ensures keeps { B.keeps on.old on.new }
{
    for number in 0..model.many() {
        let (letters, present) = model.of(number).parts();
        if !is_found(alloc, records, on, number, letters, present)? {
            return Ok(false);
        }
    }
    Ok(true)
}

/// How many names the directory has, where these are just those that it should have, listed one after the other and looked up one by one. None
/// where they are not.
pub fn look<B: Blocks>(alloc: Global, on: &mut B, model: &Model) -> Result<Option<u32>, BlockError>
    requires memory { (b : B) → IsInMemory (B.state b) }
    requires none { NoneComes (B.state on.old) }
    ensures none { NoneComes (B.state on.new) }
    ensures keeps { B.keeps on.old on.new }
{
    let Some(mut records) = opened(alloc, on, Part::Records)? else {
        return Ok(None);
    };
    if !are_found(alloc, &mut records, on, model)? {
        return Ok(None);
    }
    listed(alloc, &mut records, on, model)
}
