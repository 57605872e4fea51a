//! A new file.
ghost use Rattle.std.specs.Prelude.{◌≡◌, ◌≢◌, ◌⊎◌, ◌+◌, ◌*◌, ◌^◌, ◌<◌, ◌≤◌, ℕ, IfOk, IfErr, OnOk, OnErr, [], ◌∷◌};
ghost use Rattle.fo_base.specs.Cause.{Rose};
ghost use Rattle.fo_image.specs.Record.{RecordHolds};
ghost use Rattle.fo_ports.specs.Causes.{Caused};
ghost use Rattle.fo_ports.specs.State.{Looks, none};
ghost use Rattle.fo_files_dir.specs.Dir.{IsDirAt};
ghost use Rattle.fo_files_new.specs.New.{AltersDir, AreOwn, AreInPlace, IsLeafOf, IsPut, IsNew};
ghost use Rattle.fo_ports.specs.Sources.{DirtiesIn, AddsDirty};

use crate::pair::{Leaves, PAIRS, RECORDS_BELOW, ready_both};
use fo_base::BLOCK;
use fo_dir_add::{Outcome, add_new};
use fo_files_dir::DirAt;
use fo_image::{Kind, Record};
use fo_ports::{BlockError, Blocks};
use std::alloc::Global;

/// Settles where one of two leaves was not in place when all was last settled.
fn settle_for<B: Blocks>(on: &mut B, dir: DirAt, leaves: Leaves) -> Result<(), BlockError>
    requires dir { IsDirAt (B.state on.old) dir }
    requires own { AreOwn (B.state on.old) dir leaves }
    requires apart { (leaves.entries ≢ dir.at) × (leaves.records ≢ dir.at) }
    requires silent { (B.state on.old).tells → ⊥ }
    ensures in_place { OnOk result (AreInPlace (B.state on.new) leaves) }
    ensures own { AreOwn (B.state on.new) dir leaves }
    ensures alters { AltersDir dir none (B.state on.old) (B.state on.new) }
    ensures room { ((B.state on.new).spare ≡ (B.state on.old).spare) × ((B.state on.new).pins_left ≡ (B.state on.old).pins_left) × ((B.state on.new).room ≡ (B.state on.old).room) }
    ensures cause { IfErr result (Caused ⊥ (λ b. ⊥) (Rose (B.state on.old).faults (B.state on.new).faults) ⊥) }
    ensures dirties { DirtiesIn [] (B.state on.old) (B.state on.new) }
    ensures keeps { B.keeps on.old on.new }
{
    let entries = on.sealed(leaves.entries);
    let records = on.sealed(leaves.records);
    if entries && records {
        return Ok(());
    }
    match on.settle() {
        Ok(()) => Ok(()),
        Err(why) => Err(why),
    }
}

/// Puts the pair of a new file, and its record behind the others. The leaf of entries is damaged where the pair is not free, that of records
/// where it has no room or is none.
fn put_new<B: Blocks>(
    on: &mut B,
    dir: DirAt,
    leaves: Leaves,
    pair: u32,
    named: Record,
) -> Result<Record, BlockError>
    requires dir { IsDirAt (B.state on.old) dir }
    requires own { AreOwn (B.state on.old) dir leaves }
    requires apart { (leaves.entries ≢ dir.at) × (leaves.records ≢ dir.at) }
    requires named { RecordHolds named × (named.number < 2 ^ 30) }
    requires room { 0 < (B.state on.old).room }
    requires silent { (B.state on.old).tells → ⊥ }
    ensures put { IfOk result (λ r. (n : B) × IsPut (B.state on.old) (B.state n) (B.state on.new) dir pair leaves named r) }
    ensures nothing { OnErr result (Looks (B.state on.old) (B.state on.new)) }
    ensures left { ((B.state on.new).spare ≡ (B.state on.old).spare) × ((B.state on.old).pins_left ≤ (B.state on.new).pins_left + 1) }
    ensures room { (B.state on.old).room ≤ (B.state on.new).room + 1 }
    ensures cause { IfErr result (Caused ⊥ (λ b. (B.state on.old).is_block b) (Rose (B.state on.old).faults (B.state on.new).faults) ⊥) }
    ensures dirties { DirtiesIn (leaves.records ∷ leaves.entries ∷ []) (B.state on.old) (B.state on.new) }
    ensures keeps { B.keeps on.old on.new }
{
    let mut named = named;
    let mut bytes = [0; BLOCK];
    let rank = dir.rank - RECORDS_BELOW;
    match on.get(leaves.records, Kind::Data(0), rank, &mut bytes) {
        Ok(()) => {}
        Err(why) => return Err(why),
    }
    let Leaves { entries, records } = leaves;
    match add_new(
        on,
        records,
        entries,
        pair / PAIRS,
        pair % PAIRS,
        &mut named,
        &mut bytes,
    ) {
        Outcome::Added => Ok(named),
        Outcome::Taken => Err(BlockError::Damaged(entries)),
        Outcome::NoRoom => Err(BlockError::Damaged(records)),
    }
}

/// Puts a new file into a directory, with the pair and the leaf of records that a look found for it, and gives the record that it got: the one
/// given, with its pair and generation. Damaged is the block with the directory's entries where these are others or may not grow, and a leaf
/// which is not as it was looked at.
pub fn new_file<B: Blocks>(
    alloc: Global,
    on: &mut B,
    dir: DirAt,
    pair: u32,
    leaf: u32,
    named: Record,
) -> Result<Record, BlockError>
    requires dir { IsDirAt (B.state on.old) dir }
    requires named { RecordHolds named × (named.number < 2 ^ 30) }
    requires pins { 81 ≤ (B.state on.old).pins_left }
    requires spare { 24 ≤ (B.state on.old).spare }
    requires room { 1637 ≤ (B.state on.old).room }
    requires silent { (B.state on.old).tells → ⊥ }
    ensures new { IfOk result (IsNew B B.state on.old on.new dir pair leaf named) }
    ensures alters { IfOk result (λ r. (leaves : Leaves) × AltersDir dir (IsLeafOf leaves) (B.state on.old) (B.state on.new) × AreOwn (B.state on.new) dir leaves) }
    ensures nothing { OnErr result (AltersDir dir none (B.state on.old) (B.state on.new)) }
    ensures dir { IsDirAt (B.state on.new) dir }
    ensures spare { (B.state on.old).spare ≤ (B.state on.new).spare + 24 }
    ensures pins { (B.state on.old).pins_left ≤ (B.state on.new).pins_left + 81 }
    ensures room { (B.state on.old).room ≤ (B.state on.new).room + 1637 }
    ensures cause { IfErr result (Caused ⊥ (λ b. (B.state on.old).is_block b ⊎ (b ≡ 1)) (Rose (B.state on.old).faults (B.state on.new).faults) (Rose (B.state on.old).arena_faults (B.state on.new).arena_faults)) }
    ensures dirties { AddsDirty 48 (dir.at ∷ []) dir.at (B.state on.old) (B.state on.new) }
    ensures keeps { B.keeps on.old on.new }
{
    let leaves = match ready_both(alloc, on, dir, pair, leaf) {
        Ok(leaves) => leaves,
        Err(why) => return Err(why),
    };
    match settle_for(on, dir, leaves) {
        Ok(()) => {}
        Err(why) => return Err(why),
    }
    match put_new(on, dir, leaves, pair, named) {
        Ok(record) => Ok(record),
        Err(why) => Err(why),
    }
}
