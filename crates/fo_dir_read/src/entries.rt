//! The pairs of entries of a directory.
ghost use Rattle.std.specs.Prelude.{◌≡◌, ◌+◌, ◌*◌, ◌/◌, ◌^◌, ◌<◌, ◌≤◌, ◌↔◌, ℕ, true, false, length, take, drop, IfOk, OnOk, IfErr, IfSome, IsTrue, Option, Some, None, MatchOption};
ghost use Rattle.fo_base.specs.Cause.{Rose};
ghost use Rattle.fo_image.specs.declared.types.Entry.{Entry};
ghost use Rattle.fo_image.specs.declared.types.Kind.TheVariants.{Dir};
ghost use Rattle.fo_image.specs.Format.{EntryHolds, SpellsEntry};
ghost use Rattle.fo_ports.specs.of_crash.declared.slot.Slot.{Slot};
ghost use Rattle.fo_ports.specs.of_crash.Names.{IsInUse};
ghost use Rattle.fo_ports.specs.Blocks.{ReadsSlots, SlotFits, SpellsSlot, slot_size};
ghost use Rattle.fo_ports.specs.Causes.{Caused};
ghost use Rattle.fo_ports.specs.State.{Looks};
ghost use Rattle.fo_ports.specs.Sources.{SameLeaves, depth_for};
ghost use Rattle.fo_dir_read.specs.Names.{leaf_count};
ghost use Rattle.fo_dir_read.specs.Pairs.{OfEntries, IsTaken, PairTaken, FreeIn, FreeAt, IsFree, AreTaken, IsPair, LeadsWithin};
ghost use Rattle.fo_dir_read.specs.Pinned.{IsPinned};

use crate::leaves::{copy_leaf, count_of, pin_leaf};
use fo_base::BLOCK;
use fo_image::{Entry, Kind, Pointer, read_entry};
use fo_ports::{BlockError, Blocks, Bytes};

/// How many pairs a leaf of entries has.
const PAIRS: u32 = 102;

/// An entry that names nothing.
const NONE: Entry = Entry {
    generation: 0,
    active: false,
    dir: false,
    depth: 0,
    tag: 0,
    size: 0,
    top: Pointer::Nil,
};

/// The entry that stands from this byte of a block on; one that names nothing where none is spelled.
pub fn entry_from(block: &[u8], from: usize) -> Entry
    requires within { from + 40 ≤ length block.now }
    ensures is { (e : Entry) → SpellsEntry e (take 40 (drop from block.now)) → result ≡ e }
    ensures holds { EntryHolds result }
{
    match read_entry(&block[from..from + 40]) {
        Ok(entry) => entry,
        Err(_) => NONE,
    }
}

/// Entry `j` of a leaf; one that names nothing where none is spelled.
fn entry_in(leaf: &[u8], j: u32) -> Entry
    requires length { length leaf.now ≡ 8192 }
    requires within { j < 204 }
    ensures is { (e : Entry) → SpellsEntry e (take 40 (drop (40 * j) leaf.now)) → result ≡ e }
    ensures holds { EntryHolds result }
{
    entry_from(leaf, 40 * j as usize)
}

/// Whether entry `j` of a leaf is in use.
fn is_active(leaf: &[u8], j: u32) -> bool
    requires length { length leaf.now ≡ 8192 }
    requires within { j < 204 }
    ensures in_use { (e : Entry) → SpellsEntry e (take 40 (drop (40 * j) leaf.now)) → result ≡ e.active }
{
    entry_in(leaf, j).active
}

/// Whether entry `j` of a leaf that was read is taken.
fn is_taken<B: Blocks>(on: &B, at: u32, leaf: &[u8], j: u32) -> bool
    requires length { length leaf.now ≡ 8192 }
    requires within { j < 204 }
    requires reads { ReadsSlots (Dir 0) ((B.state on.now).now at) leaf.now }
    ensures { IsTrue result ↔ IsTaken (B.state on.now) at j }
{
    is_active(leaf, j) || on.is_clearing(at, j)
}

/// Whether one of the entries of a pair of a leaf that was read is taken.
fn is_pair_taken<B: Blocks>(on: &B, at: u32, leaf: &[u8], p: u32) -> bool
    requires length { length leaf.now ≡ 8192 }
    requires within { p < 102 }
    requires reads { ReadsSlots (Dir 0) ((B.state on.now).now at) leaf.now }
    ensures { IsTrue result ↔ PairTaken (B.state on.now) at p }
{
    is_taken(on, at, leaf, 2 * p) || is_taken(on, at, leaf, 2 * p + 1)
}

/// The least free pair of a leaf that was read.
fn free_in<B: Blocks>(on: &B, at: u32, leaf: &[u8]) -> Option<u32>
    requires length { length leaf.now ≡ 8192 }
    requires reads { ReadsSlots (Dir 0) ((B.state on.now).now at) leaf.now }
    ensures { FreeIn (B.state on.now) at result }
{
    for p in 0..PAIRS {
        if !is_pair_taken(on, at, leaf, p) {
            return Some(p);
        }
    }
    None
}

/// The least free pair of a leaf that stands in this block, where it has one; the leaf is copied.
fn copied_free<B: Blocks, S: Bytes<B>>(
    entries: &S,
    on: &mut B,
    rank: u32,
    at: u32,
) -> Result<Option<u32>, BlockError>
    requires over { S.is_over entries.now on.old }
    requires form { OfEntries (S.form entries.now) rank }
    requires shows { (B.state on.old).tells → (i : ℕ) × ((S.leaves entries.now on.old).at i ≡ Some at) }
    requires block { (B.state on.old).is_block at }
    ensures free { IfOk result (λ p. FreeIn (B.state on.new) at p) }
    ensures shows { (B.state on.old).tells → (i : ℕ) → (S.leaves entries.now on.old).at i ≡ Some at → (S.leaves entries.now on.new).at i ≡ Some at }
    ensures over { S.is_over entries.now on.new }
    ensures same { SameLeaves (B.state on.old).tells (S.leaves entries.now on.old) (S.leaves entries.now on.new) }
    ensures again { IsPinned (B.state on.old) (Dir 0) at → (B.state on.old).pins_left ≤ (B.state on.new).pins_left }
    ensures looks { Looks (B.state on.old) (B.state on.new) }
    ensures keeps { B.keeps on.old on.new }
    ensures cause { IfErr result (Caused ⊥ (λ b. ((B.state on.old).tells → ⊥) × (B.state on.old).is_block b) (Rose (B.state on.old).faults (B.state on.new).faults) ⊥) }
{
    let mut leaf = [0; BLOCK];
    copy_leaf(entries, on, Kind::Dir(0), rank, at, &mut leaf)?;
    Ok(free_in(on, at, &leaf))
}

/// The least free pair of leaf `i`, where it has one.
fn free_at<B: Blocks, S: Bytes<B>>(
    entries: &mut S,
    on: &mut B,
    rank: u32,
    i: u32,
) -> Result<Option<u32>, BlockError>
    requires over { S.is_over entries.old on.old }
    requires form { OfEntries (S.form entries.old) rank }
    ensures free { IfOk result (λ p. (B.state on.old).tells → FreeAt (B.state on.new) (S.leaves entries.new on.new) i p) }
    ensures within { IfOk result (λ p. IfSome p (λ n. n < 102)) }
    ensures over { S.is_over entries.new on.new }
    ensures same { (S.form entries.new ≡ S.form entries.old) × (S.size entries.new ≡ S.size entries.old) × SameLeaves (B.state on.old).tells (S.leaves entries.old on.old) (S.leaves entries.new on.new) }
    ensures pins { (B.state on.old).pins_left ≤ (B.state on.new).pins_left + (depth_for (S.size entries.old) + 1) }
    ensures looks { Looks (B.state on.old) (B.state on.new) }
    ensures keeps { B.keeps on.old on.new }
    ensures cause { IfErr result (Caused ⊥ (λ b. ((B.state on.old).tells → ⊥) × (B.state on.old).is_block b) (Rose (B.state on.old).faults (B.state on.new).faults) ⊥) }
{
    let Some(at) = pin_leaf(entries, on, Kind::Dir(0), rank, i)? else {
        return Ok(Some(0));
    };
    match on.lend(at, Kind::Dir(0), rank) {
        Some(leaf) => Ok(free_in(on, at, leaf)),
        None => copied_free(entries, on, rank, at),
    }
}

/// The least pair of entries that may be taken: behind the last leaf where each pair of a leaf is taken.
pub fn free_pair<B: Blocks, S: Bytes<B>>(
    entries: &mut S,
    on: &mut B,
    rank: u32,
) -> Result<u32, BlockError>
    requires over { S.is_over entries.old on.old }
    requires form { OfEntries (S.form entries.old) rank }
    ensures free { IfOk result (λ k. (B.state on.old).tells → IsFree (B.state on.new) (S.leaves entries.new on.new) (S.size entries.new) k × AreTaken (B.state on.new) (S.leaves entries.new on.new) k) }
    ensures within { IfOk result (λ k. k ≤ 102 * leaf_count (S.size entries.old)) }
    ensures over { S.is_over entries.new on.new }
    ensures same { (S.form entries.new ≡ S.form entries.old) × (S.size entries.new ≡ S.size entries.old) × SameLeaves (B.state on.old).tells (S.leaves entries.old on.old) (S.leaves entries.new on.new) }
    ensures pins { (B.state on.old).pins_left ≤ (B.state on.new).pins_left + leaf_count (S.size entries.old) * (depth_for (S.size entries.old) + 1) }
    ensures looks { Looks (B.state on.old) (B.state on.new) }
    ensures keeps { B.keeps on.old on.new }
    ensures cause { IfErr result (Caused ⊥ (λ b. ((B.state on.old).tells → ⊥) × (B.state on.old).is_block b) (Rose (B.state on.old).faults (B.state on.new).faults) ⊥) }
{
    let count = count_of(entries, on);
    for i in 0..count {
        match free_at(entries, on, rank, i) {
            Ok(Some(p)) => return Ok(PAIRS * i + p),
            Ok(None) => {}
            Err(why) => return Err(why),
        }
    }
    Ok(PAIRS * count)
}

/// The two entries of pair `p` of a leaf.
fn pair_in(leaf: &[u8], p: u32) -> (Entry, Entry)
    requires length { length leaf.now ≡ 8192 }
    requires within { p < 102 }
    ensures first { (e : Entry) → SpellsEntry e (take 40 (drop (40 * (2 * p)) leaf.now)) → result.0 ≡ e }
    ensures second { (e : Entry) → SpellsEntry e (take 40 (drop (40 * (2 * p + 1)) leaf.now)) → result.1 ≡ e }
    ensures holds { EntryHolds result.0 × EntryHolds result.1 }
{
    (entry_in(leaf, 2 * p), entry_in(leaf, 2 * p + 1))
}

/// The two entries of pair `k`, whose leaf stands in this block; the leaf is copied.
fn copied_pair<B: Blocks, S: Bytes<B>>(
    entries: &S,
    on: &mut B,
    rank: u32,
    at: u32,
    k: u32,
) -> Result<(Entry, Entry), BlockError>
    requires over { S.is_over entries.now on.old }
    requires form { OfEntries (S.form entries.now) rank }
    requires shows { (B.state on.old).tells → (S.leaves entries.now on.old).at (k / 102) ≡ Some at }
    requires block { (B.state on.old).is_block at }
    ensures pair { IfOk result (λ two. (B.state on.old).tells → IsPair (B.state on.new).now (S.leaves entries.now on.new) k two.0 two.1) }
    ensures holds { IfOk result (λ two. EntryHolds two.0 × EntryHolds two.1) }
    ensures leads { IfOk result (λ two. LeadsWithin (B.state on.new) two.0 × LeadsWithin (B.state on.new) two.1) }
    ensures over { S.is_over entries.now on.new }
    ensures same { SameLeaves (B.state on.old).tells (S.leaves entries.now on.old) (S.leaves entries.now on.new) }
    ensures again { IsPinned (B.state on.old) (Dir 0) at → (B.state on.old).pins_left ≤ (B.state on.new).pins_left }
    ensures looks { Looks (B.state on.old) (B.state on.new) }
    ensures keeps { B.keeps on.old on.new }
    ensures cause { IfErr result (Caused ⊥ (λ b. ((B.state on.old).tells → ⊥) × (B.state on.old).is_block b) (Rose (B.state on.old).faults (B.state on.new).faults) ⊥) }
{
    let mut leaf = [0; BLOCK];
    copy_leaf(entries, on, Kind::Dir(0), rank, at, &mut leaf)?;
    Ok(pair_in(&leaf, k % PAIRS))
}

/// The two entries of pair `k`, which name nothing where no leaf stands.
pub fn pair<B: Blocks, S: Bytes<B>>(
    entries: &mut S,
    on: &mut B,
    rank: u32,
    k: u32,
) -> Result<(Entry, Entry), BlockError>
    requires over { S.is_over entries.old on.old }
    requires form { OfEntries (S.form entries.old) rank }
    ensures pair { IfOk result (λ two. (B.state on.old).tells → IsPair (B.state on.new).now (S.leaves entries.new on.new) k two.0 two.1) }
    ensures holds { IfOk result (λ two. EntryHolds two.0 × EntryHolds two.1) }
    ensures leads { IfOk result (λ two. LeadsWithin (B.state on.new) two.0 × LeadsWithin (B.state on.new) two.1) }
    ensures over { S.is_over entries.new on.new }
    ensures same { (S.form entries.new ≡ S.form entries.old) × (S.size entries.new ≡ S.size entries.old) × SameLeaves (B.state on.old).tells (S.leaves entries.old on.old) (S.leaves entries.new on.new) }
    ensures pins { (B.state on.old).pins_left ≤ (B.state on.new).pins_left + (depth_for (S.size entries.old) + 1) }
    ensures looks { Looks (B.state on.old) (B.state on.new) }
    ensures keeps { B.keeps on.old on.new }
    ensures cause { IfErr result (Caused ⊥ (λ b. ((B.state on.old).tells → ⊥) × (B.state on.old).is_block b) (Rose (B.state on.old).faults (B.state on.new).faults) ⊥) }
{
    let Some(at) = pin_leaf(entries, on, Kind::Dir(0), rank, k / PAIRS)? else {
        return Ok((NONE, NONE));
    };
    match on.lend(at, Kind::Dir(0), rank) {
        Some(leaf) => Ok(pair_in(leaf, k % PAIRS)),
        None => copied_pair(entries, on, rank, at, k),
    }
}
