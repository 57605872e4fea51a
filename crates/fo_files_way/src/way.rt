//! The leaves of a directory on a way are put into a plan.
ghost use Rattle.std.specs.Prelude.{◌≡◌, ◌⊎◌, ◌+◌, ◌-◌, ◌^◌, ◌<◌, ◌≤◌, ℕ, length, slice_index, IfOk, IfErr, MatchOption};
ghost use Rattle.fo_base.specs.Cause.{Rose};
ghost use Rattle.fo_ports.specs.Causes.{Caused};
ghost use Rattle.fo_ports.specs.State.{Looks};
ghost use Rattle.fo_files_at.specs.Held.{FileHolds};
ghost use Rattle.fo_files_way.specs.Plan.{MayOwnAll, IsPlanned, IsFirstSlot, IsEntries, AddsWanted, most_for_levels};

use crate::add::Wanted;
use crate::plan::Plan;
use fo_files_at::{ENTRIES_BELOW, ENTRIES_LIMIT, File, PAIRS, tag_of};
use fo_ports::{BlockError, Blocks};
use std::alloc::Global;

/// The slot of a file's first entry in block `above` of a plan, of which block 0 is the root block.
fn first_slot(above: usize, file: &File) -> u32
    ensures is { IsFirstSlot above file.now.named.slot result }
    ensures within { result < 203 }
{
    if above == 0 {
        0
    } else {
        2 * (file.named.slot % PAIRS)
    }
}

/// The leaf of a directory's entries that has a pair; None where the directory's number is none.
fn entries_wanted(above: usize, dir: &File, pair: u32) -> Option<Wanted>
    requires high { 40 ≤ dir.now.rank }
    ensures is { MatchOption result (2 ^ 30 ≤ dir.now.named.number) (IsEntries above dir.now pair) }
{
    match tag_of(dir.named.number, false) {
        None => None,
        Some(tag) => Some(Wanted {
            above,
            slot: first_slot(above, dir),
            is_dir: true,
            tag,
            rank: dir.rank - ENTRIES_BELOW,
            limit: ENTRIES_LIMIT,
            leaf: pair / PAIRS,
        }),
    }
}

/// Puts the leaf of a directory's entries that has a pair into a plan, whose last block has the directory's own entries.
pub fn add_entries<B: Blocks>(
    alloc: Global,
    on: &mut B,
    plan: Plan,
    dir: &File,
    pair: u32,
) -> Result<Plan, BlockError>
    requires silent { (B.state on.old).tells → ⊥ }
    requires plan { IsPlanned (B.state on.old) plan }
    requires dir { FileHolds (B.state on.old) dir.now }
    requires high { 40 ≤ dir.now.rank }
    requires pins { 20 ≤ (B.state on.old).pins_left }
    ensures plan { IfOk result (IsPlanned (B.state on.new)) }
    ensures more { IfOk result (λ p. (length p.at.items ≡ length plan.at.items + 1) × (slice_index p.at.items 0 ≡ slice_index plan.at.items 0)) }
    ensures level { IfOk result (λ p. AddsWanted (IsEntries (length plan.at.items - 1) dir.now pair) plan.levels.items p.levels.items) }
    ensures most { IfOk result (λ p. most_for_levels p.levels.items ≤ most_for_levels plan.levels.items + 5) }
    ensures pins { (B.state on.old).pins_left ≤ (B.state on.new).pins_left + 20 }
    ensures looks { Looks (B.state on.old) (B.state on.new) × B.keeps on.old on.new }
    ensures cause { IfErr result (Caused ⊥ (λ b. (B.state on.old).is_block b ⊎ (b ≡ 1)) (Rose (B.state on.old).faults (B.state on.new).faults) (Rose (B.state on.old).arena_faults (B.state on.new).arena_faults)) }
{
    let above = plan.at.len() - 1;
    match entries_wanted(above, dir, pair) {
        Some(wanted) => plan.add(alloc, on, wanted),
        None => Err(BlockError::Damaged(dir.leaf)),
    }
}
