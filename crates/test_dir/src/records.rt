//! Directories whose leaves have records.
ghost use Rattle.std.specs.Prelude.{◌≡◌, ◌+◌, ◌*◌, ◌<◌, ◌≤◌, length, max, IfOk};
ghost use Rattle.fo_image.specs.declared.types.Kind.TheVariants.{Data};
ghost use Rattle.fo_ports.specs.Sources.{IsEnough, most_for};
ghost use Rattle.fo_ports_source.specs.Source.{IsEmpty};
ghost use Rattle.fo_dir_read.specs.Names.{OfRecords, leaf_count};

use crate::leaves::{fill, is_leaf, put, zeros};
use crate::reads::{in_order, named, numbers, room};
use crate::thirds::thirds;
use fo_base::{BLOCK, Memory};
use fo_image::Kind;
use fo_ports::{BlockError, Blocks, Bytes};
use fo_ports_plain::PlainBlocks;
use fo_ports_source::PlainSource;
use std::alloc::Global;
use std::test::Fail;

/// The rank of the records of the root directory.
const RANK: u32 = 2096;

/// The head of a leaf of two records, of 89 bytes.
const HEAD: [u8; 4] = [0, 2, 0, 89];

/// The record of file 7, at slot 7 and of generation 1, with the name `b` and three users `adm`.
const B: [u8; 44] = [
    0, 44, 0, 0, 0, 7, 0, 0, 0, 7, 0, 0, 0, 1, 0, 0, 0, 0, 0, 0, 1, 164, 0, 0, 0, 5, 0, 0, 0, 6, 1,
    98, 3, 97, 100, 109, 3, 97, 100, 109, 3, 97, 100, 109,
];

/// That of file 9, at slot 9, with the name `ab`.
const AB: [u8; 45] = [
    0, 45, 0, 0, 0, 9, 0, 0, 0, 9, 0, 0, 0, 1, 0, 0, 0, 0, 0, 0, 1, 164, 0, 0, 0, 5, 0, 0, 0, 6, 2,
    97, 98, 3, 97, 100, 109, 3, 97, 100, 109, 3, 97, 100, 109,
];

/// A leaf of both.
fn two() -> [u8; BLOCK]
    ensures { length result ≡ 8192 }
{
    let mut leaf = zeros();
    put(&mut leaf, 0, &HEAD);
    put(&mut leaf, 4, &B);
    put(&mut leaf, 48, &AB);
    leaf
}

/// Puts a leaf of both in front, and says whether the directory has these and no other.
fn has_two<B: Blocks, S: Bytes<B>>(
    alloc: Global,
    records: &mut S,
    on: &mut B,
    rank: u32,
) -> Result<bool, BlockError>
    requires over { S.is_over records.old on.old }
    requires form { OfRecords (S.form records.old) rank }
    requires limit { 8192 ≤ (S.form records.old).limit }
    requires pins { most_for (max (S.size records.old) 8192) 8192 ≤ (B.state on.old).pins_left }
    requires spare { IsEnough (S.leaves records.old on.old).current (S.size records.old) 0 (B.state on.old).spare }
    requires trimmed { S.size records.old < 8192 → S.is_trimmed records.old on.old }
{
    let leaf = two();
    if !is_leaf(&leaf) {
        return Ok(false);
    }
    fill(records, on, rank, &leaf)?;
    if !named(alloc, records, on, rank)? || !numbers(alloc, records, on, rank)? {
        return Ok(false);
    }
    if !in_order(alloc, records, on, rank)? {
        return Ok(false);
    }
    room(records, on, rank)
}

/// An empty source of records of up to four leaves.
fn source(alloc: Global) -> Result<PlainSource, Memory>
    ensures { IfOk result (λ s. IsEmpty s.kind s.tag s.rank s.size s.leaves.items (Data 0) 33 2096 4) }
{
    PlainSource::new(alloc, Kind::Data(0), 33, RANK, 4)
}

/// The records of a leaf are found by their names and numbers, with the fields that its bytes have, and no other is. Their names come
/// in ascending order, which is not that of the leaf, and there is room for one more.
#[test]
fn ample(rt: HostRuntime) -> Result<(), Fail> {
    let mut on = PlainBlocks::new(rt.alloc(), 40)?;
    on.reserve(40, 40, 0)?;
    let mut records = source(rt.alloc())?;
    assert!(rt; has_two(rt.alloc(), &mut records, &mut on, RANK)?);
    Ok(())
}

/// Of 26 names that are put in no order every third is taken out; the others are there, and come in order.
#[test]
fn letters(rt: HostRuntime) -> Result<(), Fail> {
    let mut on = PlainBlocks::new(rt.alloc(), 40)?;
    on.reserve(40, 40, 0)?;
    let mut records = source(rt.alloc())?;
    assert!(rt; thirds(rt.alloc(), &mut records, &mut on, RANK)?);
    Ok(())
}
