//! A free pair, and a leaf with room.
ghost use Rattle.std.specs.Prelude.{◌≡◌, ◌⊎◌, ◌↔◌, ◌+◌, ◌*◌, ◌^◌, ◌≤◌, ℕ, true, IfOk, IfErr, IsTrue};
ghost use Rattle.fo_base.specs.Cause.{Rose};
ghost use Rattle.fo_ports.specs.Causes.{Caused};
ghost use Rattle.fo_ports.specs.State.{Looks};
ghost use Rattle.fo_ports.specs.Sources.{depth_for};
ghost use Rattle.fo_dir_read.specs.Names.{leaf_count};
ghost use Rattle.fo_files_at.specs.Held.{FileHolds};

use fo_base::BLOCK;
use fo_dir_list::{count, leaf_for};
use fo_dir_read::free_pair;
use fo_dir_sure::others_are_sure;
use fo_files_at::{ENTRIES_BELOW, File, RECORDS_BELOW, entries_of, records_of};
use fo_ports::{BlockError, Blocks};
use std::alloc::Global;

/// How many names a directory may have.
pub const MOST_NAMES: u64 = 1 << 20;

/// How many records a leaf may have.
const MOST_IN_LEAF: u64 = 240;

/// Where a new file goes: the pair of entries that it gets, the leaf that gets its record, and whether the name stands alone there in every image
/// (`stands_alone`).
#[derive(Clone, Copy, Debug, PartialEq, Eq)]
pub struct Spot {
    pub pair: u32,
    pub leaf: u32,
    pub alone: bool,
}

/// The least free pair of a directory.
fn pair_for<B: Blocks>(alloc: Global, on: &mut B, dir: &File) -> Result<u32, BlockError>
    requires holds { FileHolds (B.state on.old) dir.now }
    requires high { 40 ≤ dir.now.rank }
    requires silent { (B.state on.old).tells → ⊥ }
    ensures within { IfOk result (λ k. k ≤ 102 * leaf_count dir.now.first.size) }
    ensures pins { (B.state on.old).pins_left ≤ (B.state on.new).pins_left + leaf_count dir.now.first.size * (depth_for dir.now.first.size + 1) }
    ensures looks { Looks (B.state on.old) (B.state on.new) × B.keeps on.old on.new }
    ensures cause { IfErr result (Caused ⊥ (λ b. (B.state on.old).is_block b) (Rose (B.state on.old).faults (B.state on.new).faults) ⊥) }
{
    let mut entries = match entries_of(alloc, on, dir) {
        Ok(entries) => entries,
        Err(why) => return Err(why),
    };
    match free_pair(&mut entries, on, dir.rank - ENTRIES_BELOW) {
        Ok(pair) => Ok(pair),
        Err(why) => Err(why),
    }
}

/// The first leaf of a directory's records with room for a record of this length, or the one behind the last.
fn room_for<B: Blocks>(alloc: Global, on: &mut B, dir: &File, len: usize) -> Result<u32, BlockError>
    requires holds { FileHolds (B.state on.old) dir.now }
    requires high { 40 ≤ dir.now.rank }
    requires short { len ≤ 481 }
    requires silent { (B.state on.old).tells → ⊥ }
    ensures within { IfOk result (λ i. i ≤ leaf_count dir.now.second.size) }
    ensures pins { (B.state on.old).pins_left ≤ (B.state on.new).pins_left + leaf_count dir.now.second.size * (depth_for dir.now.second.size + 1) }
    ensures looks { Looks (B.state on.old) (B.state on.new) × B.keeps on.old on.new }
    ensures cause { IfErr result (Caused ⊥ (λ b. (B.state on.old).is_block b) (Rose (B.state on.old).faults (B.state on.new).faults) ⊥) }
{
    let mut records = match records_of(alloc, on, dir) {
        Ok(records) => records,
        Err(why) => return Err(why),
    };
    match leaf_for(&mut records, on, dir.rank - RECORDS_BELOW, len) {
        Ok(leaf) => Ok(leaf),
        Err(why) => Err(why),
    }
}

/// Whether a name that memory has in no other leaf of a directory's records may come to this one now: no image has it in another, since each is
/// known to be in every image what memory has, where memory has it. Else all is to be settled before.
pub fn stands_alone<B: Blocks>(
    alloc: Global,
    on: &mut B,
    dir: &File,
    leaf: u32,
) -> Result<bool, BlockError>
    requires holds { FileHolds (B.state on.old) dir.now }
    requires high { 40 ≤ dir.now.rank }
    requires silent { (B.state on.old).tells → ⊥ }
    ensures pins { (B.state on.old).pins_left ≤ (B.state on.new).pins_left + leaf_count dir.now.second.size * depth_for dir.now.second.size }
    ensures looks { Looks (B.state on.old) (B.state on.new) × B.keeps on.old on.new }
    ensures cause { IfErr result (Caused ⊥ (λ b. (B.state on.old).is_block b) (Rose (B.state on.old).faults (B.state on.new).faults) ⊥) }
{
    let mut records = match records_of(alloc, on, dir) {
        Ok(records) => records,
        Err(why) => return Err(why),
    };
    match others_are_sure(&mut records, on, leaf) {
        Ok(alone) => Ok(alone),
        Err(why) => Err(why),
    }
}

/// Where a new file with a record of this length goes in a directory. The leaf that has the directory's own entries is damaged where these
/// are others.
pub fn spot_for<B: Blocks>(
    alloc: Global,
    on: &mut B,
    dir: &File,
    len: usize,
) -> Result<Spot, BlockError>
    requires holds { FileHolds (B.state on.old) dir.now }
    requires high { 40 ≤ dir.now.rank }
    requires short { len ≤ 481 }
    requires silent { (B.state on.old).tells → ⊥ }
    ensures pair { IfOk result (λ s. s.pair ≤ 102 * leaf_count dir.now.first.size) }
    ensures leaf { IfOk result (λ s. s.leaf ≤ leaf_count dir.now.second.size) }
    ensures pins { (B.state on.old).pins_left ≤ (B.state on.new).pins_left + (leaf_count dir.now.first.size * (depth_for dir.now.first.size + 1) + leaf_count dir.now.second.size * (2 * depth_for dir.now.second.size + 1)) }
    ensures looks { Looks (B.state on.old) (B.state on.new) × B.keeps on.old on.new }
    ensures cause { IfErr result (Caused ⊥ (λ b. (B.state on.old).is_block b) (Rose (B.state on.old).faults (B.state on.new).faults) ⊥) }
{
    let pair = match pair_for(alloc, on, dir) {
        Ok(pair) => pair,
        Err(why) => return Err(why),
    };
    let leaf = match room_for(alloc, on, dir, len) {
        Ok(leaf) => leaf,
        Err(why) => return Err(why),
    };
    match stands_alone(alloc, on, dir, leaf) {
        Ok(alone) => Ok(Spot { pair, leaf, alone }),
        Err(why) => Err(why),
    }
}

/// Whether so many names are as many as a directory may have, or more.
fn are_most(names: u64) -> bool
    ensures { IsTrue result ↔ (2 ^ 20 ≤ names) }
{
    MOST_NAMES <= names
}

/// Whether leaves of so many bytes have room for as many names as a directory may have: one of 8192 bytes has 8188 for records, and each takes
/// at least 34.
fn has_leaves(size: u64) -> bool
    ensures { IsTrue result ↔ (2 ^ 20 ≤ 240 * leaf_count size) }
{
    MOST_NAMES <= MOST_IN_LEAF * size.div_ceil(BLOCK as u64)
}

/// Whether a directory has as many names as one may have, and so takes no more. It isn't read where it has too few leaves for that.
pub fn is_full<B: Blocks>(alloc: Global, on: &mut B, dir: &File) -> Result<bool, BlockError>
    requires holds { FileHolds (B.state on.old) dir.now }
    requires high { 40 ≤ dir.now.rank }
    requires silent { (B.state on.old).tells → ⊥ }
    ensures full { IfOk result (λ full. full ≡ true → 2 ^ 20 ≤ 240 * leaf_count dir.now.second.size) }
    ensures pins { (B.state on.old).pins_left ≤ (B.state on.new).pins_left + leaf_count dir.now.second.size * (depth_for dir.now.second.size + 1) }
    ensures looks { Looks (B.state on.old) (B.state on.new) × B.keeps on.old on.new }
    ensures cause { IfErr result (Caused ⊥ (λ b. (B.state on.old).is_block b) (Rose (B.state on.old).faults (B.state on.new).faults) ⊥) }
{
    if !has_leaves(dir.second.size) {
        return Ok(false);
    }
    let mut records = match records_of(alloc, on, dir) {
        Ok(records) => records,
        Err(why) => return Err(why),
    };
    match count(&mut records, on, dir.rank - RECORDS_BELOW) {
        Ok(names) => Ok(are_most(names)),
        Err(why) => Err(why),
    }
}
