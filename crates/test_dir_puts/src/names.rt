//! Names that come and go in new leaves, over any blocks that tell nothing.
ghost use Rattle.std.specs.Prelude.{◌≡◌, ◌+◌, ◌^◌, ◌<◌, ◌≤◌, ℕ, true, IfOk, IfSome};
ghost use Rattle.fo_image.specs.Record.{RecordHolds};
ghost use Rattle.fo_meta.specs.Leaf.{IsLeaf};

use crate::leaves::{RANK, add, new_leaves};
use fo_base::BLOCK;
use fo_crash::Slot;
use fo_dir_change::change_record;
use fo_dir_move::move_record;
use fo_dir_put::change_leaf;
use fo_dir_remove::remove_record;
use fo_image::{Kind, Record};
use fo_meta::empty_leaf;
use fo_ports::{BlockError, Blocks};

/// A record is added; its leaf, and the two entries of its pair then.
pub fn added<B: Blocks>(
    on: &mut B,
    named: &mut Record,
    bytes: &mut [u8],
) -> Option<(u32, Slot, Slot)>
    requires spare { 3 ≤ (B.state on.old).spare }
    requires room { 0 < (B.state on.old).room }
    requires untold { (b : B) → (B.state b).tells → ⊥ }
    requires spelled { RecordHolds named.old }
    requires bytes { IsLeaf bytes.old }
    ensures block { IfSome result (λ t. (B.state on.new).is_block t.0) }
{
    let at = new_leaves(on);
    if named.number >= 1 << 30 || !add(on, at, named, bytes) {
        return None;
    }
    Some((at.from, on.slot(at.entries, 14), on.slot(at.entries, 15)))
}

/// A record is added, and one of this name removed; its leaf, whether it was there, and the first entry then.
pub fn removed<B: Blocks>(
    on: &mut B,
    named: &mut Record,
    name: &[u8],
    bytes: &mut [u8],
) -> Option<(u32, bool, Slot)>
    requires spare { 3 ≤ (B.state on.old).spare }
    requires room { 3 ≤ (B.state on.old).room }
    requires untold { (b : B) → (B.state b).tells → ⊥ }
    requires spelled { RecordHolds named.old }
    requires bytes { IsLeaf bytes.old }
    ensures block { IfSome result (λ t. (B.state on.new).is_block t.0) }
{
    let at = new_leaves(on);
    if named.number >= 1 << 30 || !add(on, at, named, bytes) {
        return None;
    }
    if on.is_clearing(at.entries, 14) {
        return None;
    }
    let there = remove_record(on, at.from, at.entries, 7, name, bytes);
    Some((at.from, there, on.slot(at.entries, 14)))
}

/// A record is added, and another of its file comes in its place; its leaf, and whether that had room.
pub fn changed<B: Blocks>(
    on: &mut B,
    named: &mut Record,
    other: &Record,
    bytes: &mut [u8],
) -> Option<(u32, bool)>
    requires spare { 3 ≤ (B.state on.old).spare }
    requires room { 0 < (B.state on.old).room }
    requires untold { (b : B) → (B.state b).tells → ⊥ }
    requires spelled { RecordHolds named.old × RecordHolds other.now }
    requires bytes { IsLeaf bytes.old }
    ensures block { IfSome result (λ t. (B.state on.new).is_block t.0) }
{
    let at = new_leaves(on);
    if named.number >= 1 << 30 || !add(on, at, named, bytes) {
        return None;
    }
    let fits = change_record(on, at.from, named.name.as_slice(), other, bytes);
    Some((at.from, fits))
}

/// A record is added to an empty leaf, and moves to another empty one; both, if it does.
pub fn moved<B: Blocks>(on: &mut B, named: &mut Record) -> Result<Option<(u32, u32)>, BlockError>
    requires spare { 3 ≤ (B.state on.old).spare }
    requires room { 3 ≤ (B.state on.old).room }
    requires untold { (b : B) → (B.state b).tells → ⊥ }
    requires spelled { RecordHolds named.old }
    ensures blocks { IfOk result (λ two. IfSome two (λ t. (B.state on.new).is_block t.0 × (B.state on.new).is_block t.1)) }
{
    let mut bytes = empty_leaf();
    let mut others = empty_leaf();
    let at = new_leaves(on);
    change_leaf(on, at.to, &others);
    if named.number >= 1 << 30 || !add(on, at, named, &mut bytes) {
        return Ok(None);
    }
    match move_record(on, at.from, at.to, at.entries, named, &bytes, &mut others) {
        Ok(true) => Ok(Some((at.from, at.to))),
        Ok(false) => Ok(None),
        Err(why) => Err(why),
    }
}

/// Whether a leaf of records has these bytes.
pub fn holds<B: Blocks>(on: &mut B, at: u32, bytes: &[u8]) -> Result<bool, BlockError>
    requires block { (B.state on.old).is_block at }
    requires untold { (b : B) → (B.state b).tells → ⊥ }
    ensures { (b : ℕ) → (B.state on.old).is_block b → (B.state on.new).is_block b }
{
    let mut block = [0; BLOCK];
    match on.get(at, Kind::Data(0), RANK, &mut block) {
        Ok(()) => Ok(block.as_slice() == bytes),
        Err(why) => Err(why),
    }
}
