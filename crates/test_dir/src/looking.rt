//! Directories that are looked at.
ghost use Rattle.std.specs.Prelude.{IfOk};
ghost use Rattle.fo_image.specs.declared.types.Kind.TheVariants.{Data, Dir};
ghost use Rattle.fo_ports_source.specs.Source.{IsEmpty};

use crate::leaves::is_ready;
use fo_base::Memory;
use fo_dir_list::{count, leaf_for, next};
use fo_dir_read::{free_pair, lookup, pair};
use fo_dir_sure::others_are_sure;
use fo_image::Kind;
use fo_ports::{Blocks, Bytes};
use fo_ports_plain::PlainBlocks;
use fo_ports_source::PlainSource;
use std::alloc::Global;
use std::test::Fail;

/// The rank of the records of a directory.
const RANK: u32 = 2064;

/// An empty source of records of up to four leaves.
fn source(alloc: Global) -> Result<PlainSource, Memory>
    ensures { IfOk result (λ s. IsEmpty s.kind s.tag s.rank s.size s.leaves.items (Data 0) 33 2064 4) }
{
    PlainSource::new(alloc, Kind::Data(0), 33, RANK, 4)
}

/// An empty source of entries of up to four leaves.
fn entries(alloc: Global) -> Result<PlainSource, Memory>
    ensures { IfOk result (λ s. IsEmpty s.kind s.tag s.rank s.size s.leaves.items (Dir 0) 32 2048 4) }
{
    PlainSource::new(alloc, Kind::Dir(0), 32, 2048, 4)
}

/// A directory without a leaf has no name.
#[test]
fn ample(rt: HostRuntime) -> Result<(), Fail> {
    let mut records = source(rt.alloc())?;
    let mut on = PlainBlocks::new(rt.alloc(), 20)?;
    let found = lookup(rt.alloc(), &mut records, &mut on, RANK, b"f")?;
    assert!(rt; found.is_none());
    Ok(())
}

/// So no name comes next, and a record goes into the first leaf.
#[test]
fn ample_list(rt: HostRuntime) -> Result<(), Fail> {
    let mut records = source(rt.alloc())?;
    let mut on = PlainBlocks::new(rt.alloc(), 20)?;
    let found = next(rt.alloc(), &mut records, &mut on, RANK, b"")?;
    assert!(rt; found.is_none());
    assert_eq!(rt; count(&mut records, &mut on, RANK)?, 0);
    assert_eq!(rt; leaf_for(&mut records, &mut on, RANK, 40)?, 0);
    Ok(())
}

/// Nor has one with two empty leaves.
#[test]
fn empty(rt: HostRuntime) -> Result<(), Fail> {
    let mut records = source(rt.alloc())?;
    let mut on = PlainBlocks::new(rt.alloc(), 40)?;
    on.reserve(40, 40, 0)?;
    records.prepare(&mut on, 8192, 8192)?;
    records.own_leaf(&mut on, 1);
    let found = lookup(rt.alloc(), &mut records, &mut on, RANK, b"f")?;
    assert!(rt; found.is_none());
    Ok(())
}

/// A directory without a leaf has none that isn't sure.
#[test]
fn ample_sure(rt: HostRuntime) -> Result<(), Fail> {
    let mut records = source(rt.alloc())?;
    let mut on = PlainBlocks::new(rt.alloc(), 20)?;
    assert!(rt; others_are_sure(&mut records, &mut on, 0)?);
    Ok(())
}

/// Where the second leaf alone was made, it is sure, as every block in memory is, and the first, which stands in no block, isn't.
#[test]
fn sure(rt: HostRuntime) -> Result<(), Fail> {
    let mut records = source(rt.alloc())?;
    let mut on = PlainBlocks::new(rt.alloc(), 40)?;
    on.reserve(40, 40, 0)?;
    records.prepare(&mut on, 8192, 8192)?;
    records.own_leaf(&mut on, 1);
    assert!(rt; others_are_sure(&mut records, &mut on, 0)?);
    assert!(rt; !others_are_sure(&mut records, &mut on, 1)?);
    Ok(())
}

/// The first pair is free where there is no leaf, and in one that was made ready.
#[test]
fn free(rt: HostRuntime) -> Result<(), Fail> {
    let mut entries = entries(rt.alloc())?;
    let mut on = PlainBlocks::new(rt.alloc(), 40)?;
    on.reserve(40, 40, 0)?;
    assert_eq!(rt; free_pair(&mut entries, &mut on, 2048)?, 0);
    assert!(rt; is_ready(&mut entries, &mut on, 2048)?);
    Ok(())
}

/// A pair of a leaf that is not there names nothing.
#[test]
fn no_pair(rt: HostRuntime) -> Result<(), Fail> {
    let mut entries = entries(rt.alloc())?;
    let mut on = PlainBlocks::new(rt.alloc(), 40)?;
    let (first, second) = pair(&mut entries, &mut on, 2048, 7)?;
    assert!(rt; !first.active);
    assert!(rt; !second.active);
    Ok(())
}
