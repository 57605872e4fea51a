//! Files of the root directory that get other names.
ghost use Rattle.std.specs.Prelude.{◌≡◌, ◌+◌, ◌<◌, ◌≤◌, ℕ};
ghost use Rattle.fo_image.specs.Record.{IsTextWithin, RecordHolds};
ghost use Rattle.fo_meta.specs.Leaf.{IsLeaf};
ghost use Rattle.test_names.specs.declared.parts.Part.TheVariants.{Entries, Records};
ghost use Rattle.test_names.specs.Root.{IsInMemory, IsLeafOf, NoneComes};

use crate::finds::{found, roomy};
use crate::leaf::at_hand;
use crate::own::own_leaf;
use crate::parts::Part;
use crate::steps::{both_at_hand, own_both, reserve};
use fo_base::{BLOCK, Bytes as Text};
use fo_dir_change::change_record;
use fo_dir_move::move_record;
use fo_dir_read::Found;
use fo_image::{Record, record_len};
use fo_meta::find;
use fo_ports::{BlockError, Blocks};
use std::alloc::Global;

/// The leaf of entries of a name's pair, the leaf of records that it leaves, and the one to which it goes.
#[derive(Clone, Copy, Debug)]
struct Leaves {
    entries: u32,
    from: u32,
    to: u32,
}

/// Puts a record in the place of the one of a name in a leaf at hand. Whether that is there, and the new one has room.
fn replace<B: Blocks>(
    alloc: Global,
    on: &mut B,
    leaf: u32,
    name: &Text,
    named: &Record,
    bytes: &mut [u8],
) -> Result<bool, BlockError>
    requires memory { (b : B) → IsInMemory (B.state b) }
    requires none { NoneComes (B.state on.old) }
    requires leaf { IsLeafOf (B.state on.old) Records leaf }
    requires spelled { RecordHolds named.now }
    requires bytes { IsLeaf bytes.old × (bytes.old ≡ ((B.state on.old).now leaf).bytes) }
    ensures none { NoneComes (B.state on.new) }
    ensures left { ((B.state on.new).spare ≡ (B.state on.old).spare) × ((B.state on.new).room ≡ (B.state on.old).room) }
    ensures keeps { B.keeps on.old on.new }
{
    match find(alloc, bytes, name.as_slice()) {
        Ok(Some(_)) => Ok(change_record(on, leaf, name.as_slice(), named, bytes)),
        Ok(None) => Ok(false),
        Err(_) => Err(BlockError::Memory),
    }
}

/// Puts a record in the place of the one of a name in leaf `i`. Whether that is there, and the new one has room.
fn change<B: Blocks>(
    alloc: Global,
    on: &mut B,
    i: u32,
    name: &Text,
    named: &Record,
) -> Result<bool, BlockError>
    requires memory { (b : B) → IsInMemory (B.state b) }
    requires none { NoneComes (B.state on.old) }
    requires spare { 10 ≤ (B.state on.old).spare }
    requires spelled { RecordHolds named.now }
    ensures none { NoneComes (B.state on.new) }
    ensures spare { (B.state on.old).spare ≤ (B.state on.new).spare + 10 }
    ensures room { (B.state on.new).room ≡ (B.state on.old).room }
    ensures keeps { B.keeps on.old on.new }
{
    if !own_leaf(alloc, on, Part::Records, i)? {
        return Ok(false);
    }
    let mut bytes = [0; BLOCK];
    let Some(leaf) = at_hand(alloc, on, Part::Records, i, &mut bytes)? else {
        return Ok(false);
    };
    replace(alloc, on, leaf, name, named, &mut bytes)
}

/// Moves the record of a name from a leaf at hand to another one, as it is. Whether it was there, and has room.
fn transfer<B: Blocks>(
    alloc: Global,
    on: &mut B,
    leaves: Leaves,
    name: &Text,
    from_bytes: &[u8],
    to_bytes: &mut [u8],
) -> Result<bool, BlockError>
    requires memory { (b : B) → IsInMemory (B.state b) }
    requires none { NoneComes (B.state on.old) }
    requires entries { IsLeafOf (B.state on.old) Entries leaves.entries }
    requires from { IsLeafOf (B.state on.old) Records leaves.from }
    requires to { IsLeafOf (B.state on.old) Records leaves.to }
    requires room { 0 < (B.state on.old).room }
    requires from_bytes { IsLeaf from_bytes.now × (from_bytes.now ≡ ((B.state on.old).now leaves.from).bytes) }
    requires to_bytes { IsLeaf to_bytes.old × (to_bytes.old ≡ ((B.state on.old).now leaves.to).bytes) }
    ensures none { NoneComes (B.state on.new) }
    ensures spare { (B.state on.new).spare ≡ (B.state on.old).spare }
    ensures keeps { B.keeps on.old on.new }
{
    let Leaves { entries, from, to } = leaves;
    if from == to {
        return Ok(false);
    }
    match find(alloc, from_bytes, name.as_slice()) {
        Ok(Some(named)) => move_record(on, from, to, entries, &named, from_bytes, to_bytes),
        Ok(None) => Ok(false),
        Err(_) => Err(BlockError::Memory),
    }
}

/// Moves the record of a name, whose pair is `k`, from leaf `i` to leaf `j`, as it is. Whether it was there, and has room.
fn move_to<B: Blocks>(
    alloc: Global,
    on: &mut B,
    i: u32,
    j: u32,
    k: u32,
    name: &Text,
) -> Result<bool, BlockError>
    requires memory { (b : B) → IsInMemory (B.state b) }
    requires none { NoneComes (B.state on.old) }
    requires spare { 30 ≤ (B.state on.old).spare }
    requires room { 4 ≤ (B.state on.old).room }
    ensures none { NoneComes (B.state on.new) }
    ensures spare { (B.state on.old).spare ≤ (B.state on.new).spare + 30 }
    ensures keeps { B.keeps on.old on.new }
{
    if !own_both(alloc, on, k, i)? {
        return Ok(false);
    }
    if !own_leaf(alloc, on, Part::Records, j)? {
        return Ok(false);
    }
    let mut from_bytes = [0; BLOCK];
    let Some((entries, from)) = both_at_hand(alloc, on, k, i, &mut from_bytes)? else {
        return Ok(false);
    };
    let mut to_bytes = [0; BLOCK];
    let Some(to) = at_hand(alloc, on, Part::Records, j, &mut to_bytes)? else {
        return Ok(false);
    };
    let leaves = Leaves { entries, from, to };
    transfer(alloc, on, leaves, name, &from_bytes, &mut to_bytes)
}

/// Moves the record of a name from leaf `i` to one with room for this record, and puts that in its place there. Whether it was there.
fn move_and_change<B: Blocks>(
    alloc: Global,
    on: &mut B,
    i: u32,
    name: &Text,
    named: &Record,
) -> Result<bool, BlockError>
    requires memory { (b : B) → IsInMemory (B.state b) }
    requires none { NoneComes (B.state on.old) }
    requires spare { 40 ≤ (B.state on.old).spare }
    requires room { 4 ≤ (B.state on.old).room }
    requires spelled { RecordHolds named.now }
    ensures none { NoneComes (B.state on.new) }
    ensures keeps { B.keeps on.old on.new }
{
    let Some(j) = roomy(alloc, on, record_len(named))? else {
        return Ok(false);
    };
    if !move_to(alloc, on, i, j, named.slot, name)? {
        return Ok(false);
    }
    change(alloc, on, j, name, named)
}

/// Gives a record another name.
fn give_name(named: &mut Record, name: Text)
    requires holds { RecordHolds named.old }
    requires name { IsTextWithin 255 name }
    ensures { RecordHolds named.new }
{
    named.name = name;
}

/// Gives the file of a name that was found another one. Whether it has it now.
fn rename_found<B: Blocks>(
    alloc: Global,
    on: &mut B,
    found: Found,
    name: &Text,
    other: Text,
) -> Result<bool, BlockError>
    requires memory { (b : B) → IsInMemory (B.state b) }
    requires none { NoneComes (B.state on.old) }
    requires spare { 50 ≤ (B.state on.old).spare }
    requires room { 4 ≤ (B.state on.old).room }
    requires spelled { RecordHolds found.record }
    requires other { IsTextWithin 255 other }
    ensures none { NoneComes (B.state on.new) }
    ensures keeps { B.keeps on.old on.new }
{
    let Found { leaf, mut record } = found;
    give_name(&mut record, other);
    match change(alloc, on, leaf, name, &record) {
        Ok(true) => Ok(true),
        Ok(false) => move_and_change(alloc, on, leaf, name, &record),
        Err(why) => Err(why),
    }
}

/// Gives the file of a name another one, by which its record may outgrow its leaf: then it moves to another leaf first, as it is. Whether it was
/// there, and has the other name.
pub fn rename<B: Blocks>(
    alloc: Global,
    on: &mut B,
    name: &Text,
    other: Text,
) -> Result<bool, BlockError>
    requires memory { (b : B) → IsInMemory (B.state b) }
    requires none { NoneComes (B.state on.old) }
    requires other { IsTextWithin 255 other }
    ensures none { NoneComes (B.state on.new) }
    ensures keeps { B.keeps on.old on.new }
{
    if let Err(why) = reserve(on) {
        return Err(why);
    }
    match found(alloc, on, name) {
        Ok(Some(found)) => rename_found(alloc, on, found, name, other),
        Ok(None) => Ok(false),
        Err(why) => Err(why),
    }
}
