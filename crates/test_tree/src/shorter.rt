//! A source that was grown past each border is cut back across each.
ghost use Rattle.std.specs.Prelude.{◌≤◌, OnOk};
ghost use Rattle.test_tree.specs.Linked.{IsInMemory, NoneComes, HasBlank};

use crate::deep::{PLACES, STEPS, wanted};
use crate::linked::{begin, cut, link_new, opened};
use crate::steps::{build, has, source};
use fo_image::Pointer;
use fo_ports::{BlockError, Blocks};
use fo_ports_plain::PlainBlocks;
use std::alloc::Global;
use std::test::Fail;

/// The lengths to which a source of four levels is cut, one after the other: in the first leaf behind each border, at it, and to nothing; and
/// then what it grows to.
const LENGTHS: [u64; 10] = [
    560479674369,
    560479674368,
    1370365953,
    1370365952,
    3350529,
    3350528,
    8193,
    8192,
    0,
    1 << 40,
];

/// The least depth for each.
const DEPTHS: [u8; 10] = [4, 3, 3, 2, 2, 1, 1, 0, 0, 4];

/// The byte at a place that is left once the source had these lengths.
fn left(lengths: &[u64], place: u64) -> u8 {
    for len in lengths {
        if *len <= place {
            return 0;
        }
    }
    wanted(&STEPS, place)
}

/// The bytes at all places.
fn rows(lengths: &[u64]) -> [(u64, u8); 14] {
    let mut rows = [(0, 0); 14];
    for i in 0..14 {
        rows[i] = (PLACES[i], left(lengths, PLACES[i]));
    }
    rows
}

/// Makes room for the blocks of the source.
fn reserve<B: Blocks>(on: &mut B) -> Result<(), BlockError>
    requires none { NoneComes (B.state on.old) }
    ensures spare { OnOk result (240 ≤ (B.state on.new).spare) }
    ensures none { NoneComes (B.state on.new) }
{
    match on.reserve(240, 0, 0) {
        Ok(()) => Ok(()),
        Err(why) => Err(why),
    }
}

/// Grows a source past each border, and links it then.
fn grown<B: Blocks>(alloc: Global, on: &mut B)
    requires memory { (b : B) → IsInMemory (B.state b) }
    requires none { NoneComes (B.state on.old) }
    requires begun { HasBlank (B.state on.old) }
    requires spare { 240 ≤ (B.state on.old).spare }
    ensures none { NoneComes (B.state on.new) }
{
    let mut ways = source(alloc, 0, 0, Pointer::Nil);
    build(&mut ways, on, &STEPS);
    link_new(&ways, on);
}

/// Makes the source. Whether its entry could be put.
fn made<B: Blocks>(alloc: Global, on: &mut B) -> Result<bool, BlockError>
    requires memory { (b : B) → IsInMemory (B.state b) }
    requires none { NoneComes (B.state on.old) }
    ensures none { NoneComes (B.state on.new) }
{
    reserve(on)?;
    if !begin(on)? {
        return Ok(false);
    }
    grown(alloc, on);
    Ok(true)
}

/// Gives the source these lengths, one after the other. Whether each was granted.
fn cut_each<B: Blocks>(alloc: Global, on: &mut B, lengths: &[u64]) -> Result<bool, BlockError>
    requires memory { (b : B) → IsInMemory (B.state b) }
    requires none { NoneComes (B.state on.old) }
    ensures none { NoneComes (B.state on.new) }
{
    for len in lengths {
        if !cut(alloc, on, *len)? {
            return Ok(false);
        }
    }
    Ok(true)
}

/// The depth of the source, where it has these bytes.
fn found<B: Blocks>(alloc: Global, on: &mut B, rows: &[(u64, u8)]) -> Result<Option<u8>, BlockError>
    requires memory { (b : B) → IsInMemory (B.state b) }
    requires none { NoneComes (B.state on.old) }
{
    let Some(ways) = opened(alloc, on)? else {
        return Ok(None);
    };
    let depth = ways.tree.depth;
    if has(&ways, on, rows)? {
        Ok(Some(depth))
    } else {
        Ok(None)
    }
}

/// The depth of the source once it had these lengths, where it has the bytes that are left.
fn left_on<B: Blocks>(alloc: Global, on: &mut B, lengths: &[u64]) -> Result<Option<u8>, BlockError>
    requires memory { (b : B) → IsInMemory (B.state b) }
    requires none { NoneComes (B.state on.old) }
{
    if !made(alloc, on)? {
        return Ok(None);
    }
    if !cut_each(alloc, on, lengths)? {
        return Ok(None);
    }
    found(alloc, on, &rows(lengths))
}

/// The same over a new device.
fn left_after(alloc: Global, lengths: &[u64]) -> Result<Option<u8>, BlockError> {
    let mut on = PlainBlocks::new(alloc, 400)?;
    left_on(alloc, &mut on, lengths)
}

/// The depth after the first so many lengths, where the source has the bytes that are left.
fn shows_after(alloc: Global, count: usize) -> Result<Option<u8>, BlockError> {
    match LENGTHS.get(0..count) {
        Some(lengths) => left_after(alloc, lengths),
        None => Ok(None),
    }
}

/// Whether it has them after each length, at the least depth.
fn shows_each(alloc: Global) -> Result<bool, BlockError> {
    for i in 0..10 {
        if shows_after(alloc, i + 1)? != Some(DEPTHS[i]) {
            return Ok(false);
        }
    }
    Ok(true)
}

/// From four levels to none, step by step, and to the longest source: what was cut does not come back.
#[test]
fn borders(rt: HostRuntime) -> Result<(), Fail> {
    assert!(rt; shows_each(rt.alloc())?);
    Ok(())
}
