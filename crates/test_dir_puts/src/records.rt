//! The tests.
ghost use Rattle.std.specs.Prelude.{◌≡◌, ◌+◌, ◌-◌, ◌<◌, ◌≤◌, length, IfOk};
ghost use Rattle.fo_image.specs.Record.{RecordHolds};
ghost use Rattle.fo_meta.specs.Leaf.{IsLeaf};

use crate::names::{added, changed, holds, removed};
use fo_base::BLOCK;
use fo_crash::Slot;
use fo_image::{Entry, Pointer, Record, RecordError, read_record};
use fo_meta::empty_leaf;
use fo_ports::{BlockError, Blocks};
use std::alloc::Global;
use std::test::Fail;
use test_blocks::CarelessBlocks;

/// The record of file 9, without a pair yet, with the name `b` and three users `adm`.
const NEW: [u8; 44] = [
    0, 44, 0, 0, 0, 9, 0, 0, 0, 0, 0, 0, 0, 0, 0, 0, 0, 0, 0, 0, 1, 164, 0, 0, 0, 5, 0, 0, 0, 6, 1,
    98, 3, 97, 100, 109, 3, 97, 100, 109, 3, 97, 100, 109,
];

/// The head of a leaf of one record of 44 bytes, and this record with pair 7 of generation 1.
const ONE: [u8; 48] = [
    0, 1, 0, 44, 0, 44, 0, 0, 0, 9, 0, 0, 0, 7, 0, 0, 0, 1, 0, 0, 0, 0, 0, 0, 1, 164, 0, 0, 0, 5,
    0, 0, 0, 6, 1, 98, 3, 97, 100, 109, 3, 97, 100, 109, 3, 97, 100, 109,
];

/// The head of a leaf of one record of 45 bytes, and that record of the same file with the name `ab`.
const LONGER: [u8; 49] = [
    0, 1, 0, 45, 0, 45, 0, 0, 0, 9, 0, 0, 0, 7, 0, 0, 0, 1, 0, 0, 0, 0, 0, 0, 1, 164, 0, 0, 0, 5,
    0, 0, 0, 6, 2, 97, 98, 3, 97, 100, 109, 3, 97, 100, 109, 3, 97, 100, 109,
];

/// A leaf with the record.
pub fn one() -> [u8; BLOCK] {
    let mut leaf = [0; BLOCK];
    leaf[0..48].copy_from_slice(&ONE);
    leaf
}

/// A leaf with the one of the longer name.
fn longer() -> [u8; BLOCK] {
    let mut leaf = [0; BLOCK];
    leaf[0..49].copy_from_slice(&LONGER);
    leaf
}

/// The first entry of file 9, of generation 1.
fn entry() -> Entry {
    Entry {
        generation: 1,
        active: true,
        dir: false,
        depth: 0,
        tag: 50,
        size: 0,
        top: Pointer::Nil,
    }
}

/// The second: it is not in use.
fn unused() -> Entry {
    Entry {
        generation: 1,
        active: false,
        dir: false,
        depth: 0,
        tag: 0,
        size: 0,
        top: Pointer::Nil,
    }
}

/// The new record.
pub fn record(alloc: Global) -> Result<Record, RecordError>
    ensures { IfOk result RecordHolds }
{
    read_record(alloc, &NEW)
}

/// The one with the longer name.
fn longer_record(alloc: Global) -> Result<Record, RecordError>
    ensures { IfOk result RecordHolds }
{
    read_record(alloc, &LONGER[4..49])
}

/// Blocks that tell nothing, with room for three blocks and three removals and waits.
pub fn careless(alloc: Global) -> Result<CarelessBlocks, BlockError>
    ensures { IfOk result (λ on. (3 ≤ on.count - length on.blocks.items) × (3 ≤ on.room)) }
{
    let mut on = CarelessBlocks::new(alloc, 6)?;
    on.reserve(3, 3, 3)?;
    Ok(on)
}

/// Whether a record that is added stands in its leaf, and its pair has the entries that it needs.
fn is_added<B: Blocks>(on: &mut B, named: &mut Record, leaf: &mut [u8]) -> Result<bool, BlockError>
    requires spare { 3 ≤ (B.state on.old).spare }
    requires room { 0 < (B.state on.old).room }
    requires untold { (b : B) → (B.state b).tells → ⊥ }
    requires spelled { RecordHolds named.old }
    requires bytes { IsLeaf leaf.old }
{
    match added(on, named, leaf) {
        None => Ok(false),
        Some((at, first, second)) => {
            let pair = first == Slot::Entry(entry()) && second == Slot::Entry(unused());
            Ok(holds(on, at, &one())? && pair)
        }
    }
}

/// Whether a record that is added and removed by this name leaves its leaf empty, and its entry cleared.
fn is_removed<B: Blocks>(
    on: &mut B,
    named: &mut Record,
    name: &[u8],
    leaf: &mut [u8],
) -> Result<bool, BlockError>
    requires spare { 3 ≤ (B.state on.old).spare }
    requires room { 3 ≤ (B.state on.old).room }
    requires untold { (b : B) → (B.state b).tells → ⊥ }
    requires spelled { RecordHolds named.old }
    requires bytes { IsLeaf leaf.old }
{
    match removed(on, named, name, leaf) {
        None => Ok(false),
        Some((at, there, first)) => {
            let cleared = first == Slot::Entry(entry()).cleared();
            Ok(holds(on, at, &empty_leaf())? && there && cleared)
        }
    }
}

/// Whether a record with a name of two bytes that comes in the place of one stands alone in its leaf.
fn is_changed<B: Blocks>(
    on: &mut B,
    named: &mut Record,
    other: &Record,
    leaf: &mut [u8],
) -> Result<bool, BlockError>
    requires spare { 3 ≤ (B.state on.old).spare }
    requires room { 0 < (B.state on.old).room }
    requires untold { (b : B) → (B.state b).tells → ⊥ }
    requires spelled { RecordHolds named.old × RecordHolds other.now }
    requires bytes { IsLeaf leaf.old }
{
    match changed(on, named, other, leaf) {
        None => Ok(false),
        Some((at, fits)) => Ok(holds(on, at, &longer())? && fits),
    }
}

/// A record is added at the end of its leaf, with its pair and the entries that it needs.
#[test]
fn ample(rt: HostRuntime) -> Result<(), Fail> {
    let mut on = careless(rt.alloc())?;
    let mut named = record(rt.alloc())?;
    let mut leaf = empty_leaf();
    assert!(rt; is_added(&mut on, &mut named, &mut leaf)?);
    Ok(())
}

/// One that is removed leaves its leaf and its entry empty.
#[test]
fn gone(rt: HostRuntime) -> Result<(), Fail> {
    let mut on = careless(rt.alloc())?;
    let mut named = record(rt.alloc())?;
    let mut leaf = empty_leaf();
    assert!(rt; is_removed(&mut on, &mut named, b"b", &mut leaf)?);
    Ok(())
}

/// By another name nothing is removed.
#[test]
fn absent(rt: HostRuntime) -> Result<(), Fail> {
    let mut on = careless(rt.alloc())?;
    let mut named = record(rt.alloc())?;
    let mut leaf = empty_leaf();
    assert!(rt; !is_removed(&mut on, &mut named, b"c", &mut leaf)?);
    Ok(())
}

/// One of the same file with a longer name comes in its place.
#[test]
fn renamed(rt: HostRuntime) -> Result<(), Fail> {
    let mut on = careless(rt.alloc())?;
    let mut named = record(rt.alloc())?;
    let other = longer_record(rt.alloc())?;
    let mut leaf = empty_leaf();
    assert!(rt; is_changed(&mut on, &mut named, &other, &mut leaf)?);
    Ok(())
}
