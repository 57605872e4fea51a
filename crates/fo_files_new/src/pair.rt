//! The leaves of a directory that get a new file are made ready.
ghost use Rattle.std.specs.Prelude.{◌≡◌, ◌≢◌, ◌⊎◌, ◌+◌, ◌*◌, ◌^◌, ◌<◌, ◌≤◌, ℕ, true, false, IfOk, IfErr, OnErr, MatchOption, ◌∷◌, []};
ghost use Rattle.fo_base.specs.Cause.{Rose};
ghost use Rattle.fo_ports.specs.Causes.{Caused};
ghost use Rattle.fo_ports.specs.State.{none};
ghost use Rattle.fo_files_dir.specs.Dir.{IsDirAt};
ghost use Rattle.fo_files_leaf.specs.Leaf.{IsOwnLeaf};
ghost use Rattle.fo_files_new.specs.New.{AltersDir, IsEntriesLeaf, IsRecordsLeaf, AreOwn, ReadiesBoth, ReadiesEntries, ReadiesRecords, AddsLeaves};
ghost use Rattle.fo_ports.specs.Sources.{AddsDirty};

use fo_files_dir::DirAt;
use fo_files_leaf::{LeafOf, ready_leaf, take_behind, trim_records};
use fo_ports::{BlockError, Blocks};
use std::alloc::Global;

/// How many ranks below a leaf of entries the leaves of entries and of records are that its entries name.
const ENTRIES_BELOW: u32 = 32;

pub(crate) const RECORDS_BELOW: u32 = 24;

/// How long the entries of a directory may get, and its records.
const ENTRIES_LIMIT: u64 = 1 << 38;

const RECORDS_LIMIT: u64 = 1 << 40;

/// How many pairs a leaf of entries has.
pub(crate) const PAIRS: u32 = 102;

/// File numbers are below this.
const NUMBERS: u32 = 1 << 30;

/// Two leaves of a directory: one of its entries, and one of its records.
#[derive(Clone, Copy, Debug)]
pub struct Leaves {
    pub entries: u32,
    pub records: u32,
}

/// The leaf of a directory's entries that has a pair; None where the directory's number is none.
fn entries_leaf(dir: DirAt, pair: u32) -> Option<LeafOf>
    requires least { 40 ≤ dir.rank }
    ensures is { MatchOption result (2 ^ 30 ≤ dir.number) (λ w. IsEntriesLeaf dir pair w × (dir.number < 2 ^ 30)) }
{
    if NUMBERS <= dir.number {
        return None;
    }
    Some(LeafOf {
        at: dir.at,
        slot: dir.slot,
        is_dir: true,
        tag: 32 + 2 * dir.number,
        rank: dir.rank - ENTRIES_BELOW,
        limit: ENTRIES_LIMIT,
        leaf: pair / PAIRS,
    })
}

/// A leaf of a directory's records; None where the directory's number is none.
fn records_leaf(dir: DirAt, leaf: u32) -> Option<LeafOf>
    requires least { 40 ≤ dir.rank }
    requires slot { dir.slot < 204 }
    ensures is { MatchOption result (2 ^ 30 ≤ dir.number) (λ w. IsRecordsLeaf dir leaf w × (dir.number < 2 ^ 30)) }
{
    if NUMBERS <= dir.number {
        return None;
    }
    Some(LeafOf {
        at: dir.at,
        slot: dir.slot + 1,
        is_dir: false,
        tag: 33 + 2 * dir.number,
        rank: dir.rank - RECORDS_BELOW,
        limit: RECORDS_LIMIT,
        leaf,
    })
}

/// Makes the leaf of a directory's entries with a pair ready to be changed. Where the entries have to grow and a leaf stands behind their end, it
/// is taken in first.
fn ready_entries<B: Blocks>(
    alloc: Global,
    on: &mut B,
    dir: DirAt,
    pair: u32,
) -> Result<u32, BlockError>
    requires dir { IsDirAt (B.state on.old) dir }
    requires pins { 40 ≤ (B.state on.old).pins_left }
    requires spare { 10 ≤ (B.state on.old).spare }
    requires silent { (B.state on.old).tells → ⊥ }
    ensures own { IfOk result (λ leaf. IsOwnLeaf (B.state on.new) (32 + 2 * dir.number) true leaf) }
    ensures apart { IfOk result (λ leaf. leaf ≢ dir.at) }
    ensures readied { IfOk result (ReadiesEntries B B.state on.old on.new dir pair) }
    ensures alters { AltersDir dir none (B.state on.old) (B.state on.new) }
    ensures spare { (B.state on.old).spare ≤ (B.state on.new).spare + 10 }
    ensures pins { (B.state on.old).pins_left ≤ (B.state on.new).pins_left + 40 }
    ensures room { (B.state on.new).room ≡ (B.state on.old).room }
    ensures cause { IfErr result (Caused ⊥ (λ b. (B.state on.old).is_block b ⊎ (b ≡ 1)) (Rose (B.state on.old).faults (B.state on.new).faults) (Rose (B.state on.old).arena_faults (B.state on.new).arena_faults)) }
    ensures dirties { IfOk result (λ leaf. AddsDirty 20 (dir.at ∷ []) leaf (B.state on.old) (B.state on.new)) }
    ensures dirties_refused { OnErr result (AddsDirty 20 (dir.at ∷ []) dir.at (B.state on.old) (B.state on.new)) }
    ensures keeps { B.keeps on.old on.new }
{
    let Some(wanted) = entries_leaf(dir, pair) else {
        return Err(BlockError::Damaged(dir.at));
    };
    match take_behind(alloc, on, wanted) {
        Ok(()) => {}
        Err(why) => return Err(why),
    }
    match ready_leaf(alloc, on, wanted) {
        Ok(leaf) => Ok(leaf),
        Err(why) => Err(why),
    }
}

/// Makes a leaf of a directory's records ready to be changed. Where the records have to grow they are trimmed first.
fn ready_records<B: Blocks>(
    alloc: Global,
    on: &mut B,
    dir: DirAt,
    leaf: u32,
) -> Result<u32, BlockError>
    requires dir { IsDirAt (B.state on.old) dir }
    requires pins { 40 ≤ (B.state on.old).pins_left }
    requires spare { 14 ≤ (B.state on.old).spare }
    requires room { 1636 ≤ (B.state on.old).room }
    requires silent { (B.state on.old).tells → ⊥ }
    ensures own { IfOk result (λ leaf. IsOwnLeaf (B.state on.new) (33 + 2 * dir.number) false leaf) }
    ensures apart { IfOk result (λ leaf. leaf ≢ dir.at) }
    ensures readied { IfOk result (ReadiesRecords B B.state on.old on.new dir leaf) }
    ensures alters { AltersDir dir none (B.state on.old) (B.state on.new) }
    ensures spare { (B.state on.old).spare ≤ (B.state on.new).spare + 14 }
    ensures pins { (B.state on.old).pins_left ≤ (B.state on.new).pins_left + 40 }
    ensures room { (B.state on.old).room ≤ (B.state on.new).room + 1636 }
    ensures cause { IfErr result (Caused ⊥ (λ b. (B.state on.old).is_block b ⊎ (b ≡ 1)) (Rose (B.state on.old).faults (B.state on.new).faults) (Rose (B.state on.old).arena_faults (B.state on.new).arena_faults)) }
    ensures dirties { IfOk result (λ leaf. AddsDirty 28 (dir.at ∷ []) leaf (B.state on.old) (B.state on.new)) }
    ensures dirties_refused { OnErr result (AddsDirty 28 (dir.at ∷ []) dir.at (B.state on.old) (B.state on.new)) }
    ensures keeps { B.keeps on.old on.new }
{
    let Some(wanted) = records_leaf(dir, leaf) else {
        return Err(BlockError::Damaged(dir.at));
    };
    match trim_records(alloc, on, wanted) {
        Ok(()) => {}
        Err(why) => return Err(why),
    }
    match ready_leaf(alloc, on, wanted) {
        Ok(at) => Ok(at),
        Err(why) => Err(why),
    }
}

/// Makes the leaves of a directory that get a new file ready to be changed, with their sources linked.
pub fn ready_both<B: Blocks>(
    alloc: Global,
    on: &mut B,
    dir: DirAt,
    pair: u32,
    leaf: u32,
) -> Result<Leaves, BlockError>
    requires dir { IsDirAt (B.state on.old) dir }
    requires pins { 80 ≤ (B.state on.old).pins_left }
    requires spare { 24 ≤ (B.state on.old).spare }
    requires room { 1636 ≤ (B.state on.old).room }
    requires silent { (B.state on.old).tells → ⊥ }
    ensures own { IfOk result (AreOwn (B.state on.new) dir) }
    ensures apart { IfOk result (λ leaves. (leaves.entries ≢ dir.at) × (leaves.records ≢ dir.at)) }
    ensures readied { IfOk result (ReadiesBoth B B.state on.old on.new dir pair leaf) }
    ensures alters { AltersDir dir none (B.state on.old) (B.state on.new) }
    ensures spare { (B.state on.old).spare ≤ (B.state on.new).spare + 24 }
    ensures pins { (B.state on.old).pins_left ≤ (B.state on.new).pins_left + 80 }
    ensures room { (B.state on.old).room ≤ (B.state on.new).room + 1636 }
    ensures cause { IfErr result (Caused ⊥ (λ b. (B.state on.old).is_block b ⊎ (b ≡ 1)) (Rose (B.state on.old).faults (B.state on.new).faults) (Rose (B.state on.old).arena_faults (B.state on.new).arena_faults)) }
    ensures dirties { IfOk result (λ leaves. AddsLeaves 48 dir.at leaves (B.state on.old) (B.state on.new)) }
    ensures dirties_refused { OnErr result (AddsDirty 48 (dir.at ∷ []) dir.at (B.state on.old) (B.state on.new)) }
    ensures keeps { B.keeps on.old on.new }
{
    let entries = match ready_entries(alloc, on, dir, pair) {
        Ok(entries) => entries,
        Err(why) => return Err(why),
    };
    match ready_records(alloc, on, dir, leaf) {
        Ok(records) => Ok(Leaves { entries, records }),
        Err(why) => Err(why),
    }
}
