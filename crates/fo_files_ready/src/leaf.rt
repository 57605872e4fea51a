//! Leaves of a directory's records are made ready.
ghost use Rattle.std.specs.Prelude.{◌≡◌, ◌⊎◌, ◌+◌, ◌*◌, ◌^◌, ◌<◌, ◌≤◌, ℕ, true, false, nat_le, IfOk, IfErr, IfSome, OnOk, OnErr, ◌∷◌, []};
ghost use Rattle.fo_base.specs.Cause.{Rose};
ghost use Rattle.fo_ports.specs.Causes.{Caused};
ghost use Rattle.fo_ports.specs.State.{Looks};
ghost use Rattle.fo_files_dir.specs.Dir.{IsDirAt};
ghost use Rattle.fo_files_change.specs.of_files_leaf.Leaf.{Readied};
ghost use Rattle.fo_files_move.specs.of_files_record.Leaf.{IsRecordsAt, IsEntriesAt};
ghost use Rattle.fo_files_change.specs.Records.{AltersRecords, records_of};
ghost use Rattle.fo_files_ready.specs.Ready.{IsLeafOf, most_spare, records_size};
ghost use Rattle.fo_ports.specs.Sources.{AddsDirty, way_for};

use crate::own::{MOST_ADDED, own_few};
use fo_base::BLOCK;
use fo_crash::Slot;
use fo_files_change::files_leaf::{LeafOf, trim_records};
use fo_files_dir::DirAt;
use fo_ports::{BlockError, Blocks};
use std::alloc::Global;

/// How many ranks below a leaf of entries the leaves of records are that its entries name, and how long a directory's records may get.
pub(crate) const RECORDS_BELOW: u32 = 24;

const RECORDS_LIMIT: u64 = 1 << 40;

/// Leaf `i` of a directory's records; None where the directory's number is none.
fn records_wanted(dir: DirAt, i: u32) -> Option<LeafOf>
    requires least { 40 ≤ dir.rank }
    requires slot { dir.slot < 204 }
    ensures is { IfSome result (λ w. w ≡ records_of dir i) }
{
    if dir.number >= 1 << 30 {
        return None;
    }
    Some(LeafOf {
        at: dir.at,
        slot: dir.slot + 1,
        is_dir: false,
        tag: 33 + 2 * dir.number,
        rank: dir.rank - RECORDS_BELOW,
        limit: RECORDS_LIMIT,
        leaf: i,
    })
}

/// Makes leaf `i` of a directory's records ready to be changed, with its source linked, and gives its address; where it may be added, also the one
/// behind the last. Where it is refused all was only looked at.
pub(crate) fn leaf_at<B: Blocks>(
    alloc: Global,
    on: &mut B,
    dir: DirAt,
    i: u32,
    may_add: bool,
) -> Result<u32, BlockError>
    requires silent { (B.state on.old).tells → ⊥ }
    requires dir { IsDirAt (B.state on.old) dir }
    requires pins { 20 ≤ (B.state on.old).pins_left }
    requires spare { 6 ≤ (B.state on.old).spare }
    ensures own { IfOk result (IsLeafOf dir (B.state on.new)) }
    ensures leaf { IfOk result (IsRecordsAt (B.state on.new)) }
    ensures readied { IfOk result (λ leaf. (m : B) × Readied (B.state on.old) (B.state m) (B.state on.new) (records_of dir i) leaf) }
    ensures nothing { OnErr result (Looks (B.state on.old) (B.state on.new)) }
    ensures alters { AltersRecords dir (B.state on.old) (B.state on.new) }
    ensures spare { (B.state on.old).spare ≤ (B.state on.new).spare + 6 }
    ensures fewer { may_add ≡ false → (B.state on.old).spare ≤ (B.state on.new).spare + way_for (records_size (B.state on.old) dir) }
    ensures same { OnOk result (may_add ≡ false → records_size (B.state on.new) dir ≡ records_size (B.state on.old) dir) }
    ensures pins { (B.state on.old).pins_left ≤ (B.state on.new).pins_left + 20 }
    ensures room { (B.state on.new).room ≡ (B.state on.old).room }
    ensures cause { IfErr result (Caused ⊥ (λ b. (B.state on.old).is_block b ⊎ (b ≡ 1)) (Rose (B.state on.old).faults (B.state on.new).faults) (Rose (B.state on.old).arena_faults (B.state on.new).arena_faults)) }
    ensures dirties { IfOk result (λ leaf. AddsDirty 12 (dir.at ∷ []) leaf (B.state on.old) (B.state on.new)) }
    ensures dirties_fewer { IfOk result (λ leaf. may_add ≡ false → AddsDirty (2 * way_for (records_size (B.state on.old) dir)) (dir.at ∷ []) leaf (B.state on.old) (B.state on.new)) }
    ensures keeps { B.keeps on.old on.new }
{
    let Some(wanted) = records_wanted(dir, i) else {
        return Err(BlockError::Damaged(dir.at));
    };
    match own_few(alloc, on, wanted, may_add) {
        Ok(leaf) => Ok(leaf),
        Err(why) => Err(why),
    }
}

/// Clears what stands behind the end of a directory's records where they have to grow to have leaf `i`.
fn trim_for<B: Blocks>(alloc: Global, on: &mut B, dir: DirAt, i: u32) -> Result<(), BlockError>
    requires silent { (B.state on.old).tells → ⊥ }
    requires dir { IsDirAt (B.state on.old) dir }
    requires pins { 20 ≤ (B.state on.old).pins_left }
    requires spare { 4 ≤ (B.state on.old).spare }
    requires room { 1636 ≤ (B.state on.old).room }
    ensures alters { AltersRecords dir (B.state on.old) (B.state on.new) }
    ensures spare { (B.state on.old).spare ≤ (B.state on.new).spare + 4 }
    ensures few { i < 409 ^ 2 → (B.state on.old).spare ≤ (B.state on.new).spare + 2 }
    ensures pins { (B.state on.old).pins_left ≤ (B.state on.new).pins_left + 20 }
    ensures room { (B.state on.old).room ≤ (B.state on.new).room + 1636 }
    ensures cause { IfErr result (Caused ⊥ (λ b. (B.state on.old).is_block b ⊎ (b ≡ 1)) (Rose (B.state on.old).faults (B.state on.new).faults) (Rose (B.state on.old).arena_faults (B.state on.new).arena_faults)) }
    ensures dirties { AddsDirty 8 (dir.at ∷ []) dir.at (B.state on.old) (B.state on.new) }
    ensures dirties_few { i < 409 ^ 2 → AddsDirty 4 (dir.at ∷ []) dir.at (B.state on.old) (B.state on.new) }
    ensures keeps { B.keeps on.old on.new }
{
    let Some(wanted) = records_wanted(dir, i) else {
        return Err(BlockError::Damaged(dir.at));
    };
    match trim_records(alloc, on, wanted) {
        Ok(()) => Ok(()),
        Err(why) => Err(why),
    }
}

/// Makes leaf `i` of a directory's records ready, one of the first 409^2, or the one behind the last, for which the records are trimmed.
fn added_leaf<B: Blocks>(alloc: Global, on: &mut B, dir: DirAt, i: u32) -> Result<u32, BlockError>
    requires silent { (B.state on.old).tells → ⊥ }
    requires dir { IsDirAt (B.state on.old) dir }
    requires few { i < 409 ^ 2 }
    requires pins { 40 ≤ (B.state on.old).pins_left }
    requires spare { 8 ≤ (B.state on.old).spare }
    requires room { 1636 ≤ (B.state on.old).room }
    ensures own { IfOk result (IsLeafOf dir (B.state on.new)) }
    ensures leaf { IfOk result (IsRecordsAt (B.state on.new)) }
    ensures readied { IfOk result (λ leaf. (n m : B) × AltersRecords dir (B.state on.old) (B.state n) × Readied (B.state n) (B.state m) (B.state on.new) (records_of dir i) leaf) }
    ensures alters { AltersRecords dir (B.state on.old) (B.state on.new) }
    ensures spare { (B.state on.old).spare ≤ (B.state on.new).spare + 8 }
    ensures pins { (B.state on.old).pins_left ≤ (B.state on.new).pins_left + 40 }
    ensures room { (B.state on.old).room ≤ (B.state on.new).room + 1636 }
    ensures cause { IfErr result (Caused ⊥ (λ b. (B.state on.old).is_block b ⊎ (b ≡ 1)) (Rose (B.state on.old).faults (B.state on.new).faults) (Rose (B.state on.old).arena_faults (B.state on.new).arena_faults)) }
    ensures dirties { IfOk result (λ leaf. AddsDirty 16 (dir.at ∷ []) leaf (B.state on.old) (B.state on.new)) }
    ensures dirties_refused { OnErr result (AddsDirty 16 (dir.at ∷ []) dir.at (B.state on.old) (B.state on.new)) }
    ensures keeps { B.keeps on.old on.new }
{
    match trim_for(alloc, on, dir, i) {
        Ok(()) => {}
        Err(why) => return Err(why),
    }
    match leaf_at(alloc, on, dir, i, true) {
        Ok(leaf) => Ok(leaf),
        Err(why) => Err(why),
    }
}

/// Makes leaf `i` of a directory's records ready, which is there.
fn present_leaf<B: Blocks>(alloc: Global, on: &mut B, dir: DirAt, i: u32) -> Result<u32, BlockError>
    requires silent { (B.state on.old).tells → ⊥ }
    requires dir { IsDirAt (B.state on.old) dir }
    requires pins { 40 ≤ (B.state on.old).pins_left }
    requires spare { 6 ≤ (B.state on.old).spare }
    requires room { 1636 ≤ (B.state on.old).room }
    ensures own { IfOk result (IsLeafOf dir (B.state on.new)) }
    ensures leaf { IfOk result (IsRecordsAt (B.state on.new)) }
    ensures readied { IfOk result (λ leaf. (n m : B) × AltersRecords dir (B.state on.old) (B.state n) × Readied (B.state n) (B.state m) (B.state on.new) (records_of dir i) leaf) }
    ensures alters { AltersRecords dir (B.state on.old) (B.state on.new) }
    ensures spare { (B.state on.old).spare ≤ (B.state on.new).spare + 6 }
    ensures pins { (B.state on.old).pins_left ≤ (B.state on.new).pins_left + 40 }
    ensures room { (B.state on.old).room ≤ (B.state on.new).room + 1636 }
    ensures cause { IfErr result (Caused ⊥ (λ b. (B.state on.old).is_block b ⊎ (b ≡ 1)) (Rose (B.state on.old).faults (B.state on.new).faults) (Rose (B.state on.old).arena_faults (B.state on.new).arena_faults)) }
    ensures dirties { IfOk result (λ leaf. AddsDirty 12 (dir.at ∷ []) leaf (B.state on.old) (B.state on.new)) }
    ensures dirties_refused { OnErr result (AddsDirty 12 (dir.at ∷ []) dir.at (B.state on.old) (B.state on.new)) }
    ensures keeps { B.keeps on.old on.new }
{
    match leaf_at(alloc, on, dir, i, false) {
        Ok(leaf) => Ok(leaf),
        Err(why) => Err(why),
    }
}

/// Whether the entry of a directory's records says that they have leaf `i`.
fn has_leaf<B: Blocks>(on: &B, dir: DirAt, i: u32) -> bool
    requires dir { IsDirAt (B.state on.now) dir }
    ensures { result ≡ nat_le (8192 * (i + 1)) (records_size (B.state on.now) dir) }
{
    match on.slot(dir.at, dir.slot + 1) {
        Slot::Entry(entry) => BLOCK as u64 * (i as u64 + 1) <= entry.size,
        _ => false,
    }
}

/// Whether leaf `i` of a directory's records is none that they have, and one of the first 409^2: then two levels of pointers lead to all.
fn is_added<B: Blocks>(on: &B, dir: DirAt, i: u32) -> bool
    requires dir { IsDirAt (B.state on.now) dir }
    ensures few { result ≡ true → i < 409 ^ 2 }
    ensures most { result ≡ true → most_spare (records_size (B.state on.now) dir) ≡ 8 }
{
    if i >= MOST_ADDED {
        return false;
    }
    !has_leaf(on, dir, i)
}

/// Makes leaf `i` of a directory's records ready, or the one behind the last, for which the records are trimmed. Longer records than
/// two levels of pointers lead to have each leaf that may be added.
pub(crate) fn spare_leaf<B: Blocks>(
    alloc: Global,
    on: &mut B,
    dir: DirAt,
    i: u32,
) -> Result<u32, BlockError>
    requires silent { (B.state on.old).tells → ⊥ }
    requires dir { IsDirAt (B.state on.old) dir }
    requires pins { 40 ≤ (B.state on.old).pins_left }
    requires spare { most_spare (records_size (B.state on.old) dir) ≤ (B.state on.old).spare }
    requires room { 1636 ≤ (B.state on.old).room }
    ensures own { IfOk result (IsLeafOf dir (B.state on.new)) }
    ensures leaf { IfOk result (IsRecordsAt (B.state on.new)) }
    ensures readied { IfOk result (λ leaf. (n m : B) × AltersRecords dir (B.state on.old) (B.state n) × Readied (B.state n) (B.state m) (B.state on.new) (records_of dir i) leaf) }
    ensures alters { AltersRecords dir (B.state on.old) (B.state on.new) }
    ensures spare { (B.state on.old).spare ≤ (B.state on.new).spare + most_spare (records_size (B.state on.old) dir) }
    ensures pins { (B.state on.old).pins_left ≤ (B.state on.new).pins_left + 40 }
    ensures room { (B.state on.old).room ≤ (B.state on.new).room + 1636 }
    ensures cause { IfErr result (Caused ⊥ (λ b. (B.state on.old).is_block b ⊎ (b ≡ 1)) (Rose (B.state on.old).faults (B.state on.new).faults) (Rose (B.state on.old).arena_faults (B.state on.new).arena_faults)) }
    ensures dirties { IfOk result (λ leaf. AddsDirty (2 * most_spare (records_size (B.state on.old) dir)) (dir.at ∷ []) leaf (B.state on.old) (B.state on.new)) }
    ensures dirties_refused { OnErr result (AddsDirty (2 * most_spare (records_size (B.state on.old) dir)) (dir.at ∷ []) dir.at (B.state on.old) (B.state on.new)) }
    ensures keeps { B.keeps on.old on.new }
{
    if is_added(on, dir, i) {
        added_leaf(alloc, on, dir, i)
    } else {
        present_leaf(alloc, on, dir, i)
    }
}
