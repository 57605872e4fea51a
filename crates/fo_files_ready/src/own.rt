//! A leaf of a directory's records is owned, for few blocks.
ghost use Rattle.std.specs.Prelude.{◌≡◌, ◌≢◌, ◌⊎◌, ◌+◌, ◌*◌, ◌≤◌, ℕ, true, false, IfOk, OnOk, OnErr, IfErr, ◌∷◌, []};
ghost use Rattle.fo_base.specs.Cause.{Rose};
ghost use Rattle.fo_ports.specs.Causes.{Caused};
ghost use Rattle.fo_ports.specs.Sources.{most_to_own, way_for, AddsDirty};
ghost use Rattle.fo_ports.specs.State.{Looks, none};
ghost use Rattle.fo_files_change.specs.of_files_leaf.Alters.{Alters};
ghost use Rattle.fo_files_change.specs.of_files_leaf.Leaf.{IsHolder, IsWanted, IsAbove, IsOwnLeaf, Readied};
ghost use Rattle.fo_files_ready.specs.Ready.{size_in};

use fo_base::BLOCK;
use fo_files_change::files_leaf::{LeafOf, may_grow, own_grown, source_for};
use fo_ports::{BlockError, Blocks};
use std::alloc::Global;

/// How many leaves two levels of pointers lead to. A leaf without room for one more record has 17 at least, so no directory of up to 2^20 names
/// has to grow to as many.
pub(crate) const MOST_ADDED: u32 = 409 * 409;

/// Whether a source of so many bytes has a leaf, or may get it and is small.
fn is_few(size: u64, leaf: u32, may_add: bool) -> bool
    ensures few { result ≡ true → most_to_own size leaf ≤ 6 }
    ensures has { result ≡ true → may_add ≡ false → 8192 * (leaf + 1) ≤ size }
{
    if BLOCK as u64 * (leaf as u64 + 1) <= size {
        return true;
    }
    may_add && leaf < MOST_ADDED
}

/// Makes a leaf that a source has ready to be changed, with its source linked, and gives its address; or where it may be added, the one behind
/// the last, of a small source. The block with the source's entry is damaged where it is neither, where it has another entry than is wanted, or
/// one that waits to be cleared, or where the source has to grow and something stands behind its end.
pub(crate) fn own_few<B: Blocks>(
    alloc: Global,
    on: &mut B,
    wanted: LeafOf,
    may_add: bool,
) -> Result<u32, BlockError>
    requires silent { (B.state on.old).tells → ⊥ }
    requires holder { IsHolder (B.state on.old) wanted.at wanted.slot }
    requires wanted { IsWanted wanted }
    requires pins { 20 ≤ (B.state on.old).pins_left }
    requires spare { 6 ≤ (B.state on.old).spare }
    ensures own { IfOk result (λ leaf. IsOwnLeaf (B.state on.new) wanted.tag wanted.is_dir leaf) }
    ensures readied { IfOk result (λ leaf. (m : B) × Readied (B.state on.old) (B.state m) (B.state on.new) wanted leaf) }
    ensures nothing { OnErr result (Looks (B.state on.old) (B.state on.new)) }
    ensures alters { Alters wanted.at (λ k. k ≡ wanted.slot) (λ t. t ≡ wanted.tag) (IsAbove wanted.tag wanted.is_dir) none (B.state on.old) (B.state on.new) }
    ensures spare { (B.state on.old).spare ≤ (B.state on.new).spare + 6 }
    ensures fewer { may_add ≡ false → (B.state on.old).spare ≤ (B.state on.new).spare + way_for (size_in (((B.state on.old).now wanted.at).slot wanted.slot)) }
    ensures same { OnOk result (may_add ≡ false → size_in (((B.state on.new).now wanted.at).slot wanted.slot) ≡ size_in (((B.state on.old).now wanted.at).slot wanted.slot)) }
    ensures pins { (B.state on.old).pins_left ≤ (B.state on.new).pins_left + 20 }
    ensures room { (B.state on.new).room ≡ (B.state on.old).room }
    ensures cause { IfErr result (Caused ⊥ (λ b. (B.state on.old).is_block b ⊎ (b ≡ 1)) (Rose (B.state on.old).faults (B.state on.new).faults) (Rose (B.state on.old).arena_faults (B.state on.new).arena_faults)) }
    ensures dirties { IfOk result (λ leaf. AddsDirty 12 (wanted.at ∷ []) leaf (B.state on.old) (B.state on.new)) }
    ensures dirties_fewer { IfOk result (λ leaf. may_add ≡ false → AddsDirty (2 * way_for (size_in (((B.state on.old).now wanted.at).slot wanted.slot))) (wanted.at ∷ []) leaf (B.state on.old) (B.state on.new)) }
    ensures keeps { B.keeps on.old on.new }
{
    let mut source = match source_for(alloc, on, wanted) {
        Ok(source) => source,
        Err(why) => return Err(why),
    };
    let LeafOf { at, slot, leaf, .. } = wanted;
    if !is_few(source.ways.tree.size, leaf, may_add) {
        return Err(BlockError::Damaged(at));
    }
    if !may_grow(on, &source, leaf) {
        return Err(BlockError::Damaged(at));
    }
    Ok(own_grown(&mut source, on, leaf, at, slot))
}
