//! The leaf that has a record is made ready for the record to change.
ghost use Rattle.std.specs.Prelude.{◌≡◌, ◌⊎◌, ◌+◌, ◌*◌, ◌%◌, ◌<◌, ◌≤◌, ℕ, IfOk, IfErr, OnOk, OnErr, ◌∷◌, []};
ghost use Rattle.fo_base.specs.Cause.{Rose};
ghost use Rattle.fo_image.specs.Record.{RecordHolds};
ghost use Rattle.fo_meta.specs.Leaf.{IsLeaf};
ghost use Rattle.fo_ports.specs.Causes.{Caused};
ghost use Rattle.fo_files_move.specs.of_dir_move.Moves.{HasLeaves};
ghost use Rattle.fo_files_dir.specs.Dir.{IsDirAt};
ghost use Rattle.fo_files_move.specs.Moves.{HasMoved};
ghost use Rattle.fo_files_move.specs.of_files_record.Leaf.{IsRecordsAt, IsEntriesAt};
ghost use Rattle.fo_files_move.specs.of_files_record.Stays.{Rewrites, no_slot};
ghost use Rattle.fo_files_change.specs.Records.{AltersRecords};
ghost use Rattle.fo_files_ready.specs.Ready.{IsLeafOf, IsReadyFor, MadeReady, MovesTo, most_spare, records_size};
ghost use Rattle.fo_ports.specs.Sources.{DirtiesIn, AddsDirty};

use crate::leaf::{RECORDS_BELOW, leaf_at, spare_leaf};
use crate::place::{has_place, with_room};
use fo_files_dir::DirAt;
use fo_files_move::move_between;
use fo_image::Record;
use fo_ports::{BlockError, Blocks};
use std::alloc::Global;

/// Makes leaf `i` of a directory's records ready, which has the first record of this name, so that the name's record may change to this one there,
/// and gives the leaf's address. Where the new record doesn't fit, the one of the name first moves as it is to leaf `spare`, or to the one behind
/// the last, and that leaf's address is given; `entries` is the leaf of entries that has the record's pair. Damaged is the block with the directory's
/// entries where it has others, a leaf without a record of the name, and a leaf `spare` that has one or has no room.
pub fn ready_record<B: Blocks>(
    alloc: Global,
    on: &mut B,
    dir: DirAt,
    entries: u32,
    i: u32,
    spare: u32,
    name: &[u8],
    named: &Record,
) -> Result<u32, BlockError>
    requires silent { (B.state on.old).tells → ⊥ }
    requires dir { IsDirAt (B.state on.old) dir }
    requires entries { IsEntriesAt (B.state on.old) entries }
    requires spelled { RecordHolds named.now }
    requires pins { 60 ≤ (B.state on.old).pins_left }
    requires spare { 11 ≤ (B.state on.old).spare }
    requires room { 1637 ≤ (B.state on.old).room }
    ensures ready { IfOk result (λ leaf. IsReadyFor (B.state on.new) dir leaf name.now named.now) }
    ensures steps { IfOk result (λ leaf. MadeReady B B.state on.old on.new dir i spare leaf name.now) }
    ensures stays { (m : B) × AltersRecords dir (B.state on.old) (B.state m) × B.keeps on.old m × B.keeps m on.new × Rewrites (IsLeafOf dir (B.state m)) no_slot (B.state m) (B.state on.new) }
    ensures nothing { OnErr result ((m : B) × AltersRecords dir (B.state on.old) (B.state m) × Rewrites (λ b. ⊥) no_slot (B.state m) (B.state on.new)) }
    ensures dir { IsDirAt (B.state on.new) dir }
    ensures entries { (e : ℕ) → IsEntriesAt (B.state on.old) e → IsEntriesAt (B.state on.new) e }
    ensures spare { (B.state on.old).spare ≤ (B.state on.new).spare + 11 }
    ensures pins { (B.state on.old).pins_left ≤ (B.state on.new).pins_left + 60 }
    ensures room { (B.state on.old).room ≤ (B.state on.new).room + 1637 }
    ensures cause { IfErr result (Caused ⊥ (λ b. (B.state on.old).is_block b ⊎ (b ≡ 1)) (Rose (B.state on.old).faults (B.state on.new).faults) (Rose (B.state on.old).arena_faults (B.state on.new).arena_faults)) }
    ensures dirties { IfOk result (λ leaf. AddsDirty 22 (dir.at ∷ []) leaf (B.state on.old) (B.state on.new)) }
    ensures dirties_refused { OnErr result (AddsDirty 22 (dir.at ∷ []) dir.at (B.state on.old) (B.state on.new)) }
    ensures keeps { B.keeps on.old on.new }
{
    let from = match leaf_at(alloc, on, dir, i, false) {
        Ok(from) => from,
        Err(why) => return Err(why),
    };
    let fits = match has_place(on, dir, from, name, named) {
        Ok(fits) => fits,
        Err(why) => return Err(why),
    };
    if fits {
        return Ok(from);
    }
    match move_to(alloc, on, dir, entries, from, spare, name, named) {
        Ok(to) => Ok(to),
        Err(why) => Err(why),
    }
}

/// Moves the first record of this name from a leaf of a directory's records that may be changed to leaf `spare`, where this one fits then.
fn move_to<B: Blocks>(
    alloc: Global,
    on: &mut B,
    dir: DirAt,
    entries: u32,
    from: u32,
    spare: u32,
    name: &[u8],
    named: &Record,
) -> Result<u32, BlockError>
    requires silent { (B.state on.old).tells → ⊥ }
    requires dir { IsDirAt (B.state on.old) dir }
    requires entries { IsEntriesAt (B.state on.old) entries }
    requires from { IsLeafOf dir (B.state on.old) from }
    requires bytes { IsLeaf (((B.state on.old).now from).bytes) }
    requires spelled { RecordHolds named.now }
    requires pins { 40 ≤ (B.state on.old).pins_left }
    requires spare { most_spare (records_size (B.state on.old) dir) ≤ (B.state on.old).spare }
    requires room { 1637 ≤ (B.state on.old).room }
    ensures ready { IfOk result (λ leaf. IsReadyFor (B.state on.new) dir leaf name.now named.now) }
    ensures steps { IfOk result (λ leaf. MovesTo B B.state on.old on.new dir spare from leaf name.now) }
    ensures stays { (m : B) × AltersRecords dir (B.state on.old) (B.state m) × B.keeps on.old m × B.keeps m on.new × Rewrites (IsLeafOf dir (B.state m)) no_slot (B.state m) (B.state on.new) }
    ensures nothing { OnErr result ((m : B) × AltersRecords dir (B.state on.old) (B.state m) × Rewrites (λ b. ⊥) no_slot (B.state m) (B.state on.new)) }
    ensures spare { (B.state on.old).spare ≤ (B.state on.new).spare + most_spare (records_size (B.state on.old) dir) }
    ensures pins { (B.state on.old).pins_left ≤ (B.state on.new).pins_left + 40 }
    ensures room { (B.state on.old).room ≤ (B.state on.new).room + 1637 }
    ensures cause { IfErr result (Caused ⊥ (λ b. (B.state on.old).is_block b ⊎ (b ≡ 1)) (Rose (B.state on.old).faults (B.state on.new).faults) (Rose (B.state on.old).arena_faults (B.state on.new).arena_faults)) }
    ensures dirties { IfOk result (λ leaf. AddsDirty (2 * most_spare (records_size (B.state on.old) dir)) (dir.at ∷ from ∷ []) leaf (B.state on.old) (B.state on.new)) }
    ensures dirties_refused { OnErr result (AddsDirty (2 * most_spare (records_size (B.state on.old) dir)) (dir.at ∷ from ∷ []) dir.at (B.state on.old) (B.state on.new)) }
    ensures keeps { B.keeps on.old on.new }
{
    let to = match spare_leaf(alloc, on, dir, spare) {
        Ok(to) => to,
        Err(why) => return Err(why),
    };
    match with_room(on, dir, to, name, named) {
        Ok(()) => {}
        Err(why) => return Err(why),
    }
    match move_here(alloc, on, from, to, dir.rank - RECORDS_BELOW, entries, name) {
        Ok(()) => Ok(to),
        Err(why) => Err(why),
    }
}

/// Moves the first record of this name from an owned leaf of records of this rank to another, which is damaged where it has no room.
fn move_here<B: Blocks>(
    alloc: Global,
    on: &mut B,
    from: u32,
    to: u32,
    rank: u32,
    entries: u32,
    name: &[u8],
) -> Result<(), BlockError>
    requires silent { (B.state on.old).tells → ⊥ }
    requires from { IsRecordsAt (B.state on.old) from }
    requires to { IsRecordsAt (B.state on.old) to }
    requires rank { rank % 32 ≡ 16 }
    requires entries { IsEntriesAt (B.state on.old) entries }
    requires room { 0 < (B.state on.old).room }
    ensures moved { OnOk result (HasMoved name.now (((B.state on.old).now from).bytes) (((B.state on.old).now to).bytes) (((B.state on.new).now from).bytes) (((B.state on.new).now to).bytes)) }
    ensures stays { OnErr result (HasLeaves from to (((B.state on.old).now from).bytes) (((B.state on.old).now to).bytes) (B.state on.new)) }
    ensures to { IsRecordsAt (B.state on.new) to }
    ensures rewrites { Rewrites (λ b. (b ≡ from) ⊎ (b ≡ to)) no_slot (B.state on.old) (B.state on.new) }
    ensures room { (B.state on.old).room ≤ (B.state on.new).room + 1 }
    ensures cause { IfErr result (Caused ⊥ (B.state on.old).is_block (Rose (B.state on.old).faults (B.state on.new).faults) ⊥) }
    ensures dirties { DirtiesIn (from ∷ to ∷ []) (B.state on.old) (B.state on.new) }
    ensures keeps { B.keeps on.old on.new }
{
    match move_between(alloc, on, from, to, rank, entries, name) {
        Ok(true) => Ok(()),
        Ok(false) => Err(BlockError::Damaged(to)),
        Err(why) => Err(why),
    }
}
