//! A leaf is made ready.
ghost use Rattle.std.specs.Prelude.{◌≡◌, ◌≢◌, ◌⊎◌, ◌+◌, ◌≤◌, ℕ, IfOk, OnOk, OnErr, IfErr, ◌∷◌, []};
ghost use Rattle.fo_base.specs.Cause.{Rose};
ghost use Rattle.fo_ports.specs.Causes.{Caused};
ghost use Rattle.fo_ports.specs.State.{Looks, none};
ghost use Rattle.fo_files_leaf.specs.Alters.{Alters};
ghost use Rattle.fo_files_leaf.specs.Leaf.{IsHolder, IsWanted, IsAbove, IsOwnLeaf, Readied};
ghost use Rattle.fo_ports.specs.Sources.{AddsDirty};

use crate::open::{LeafOf, may_grow, source_for};
use crate::own::own_grown;
use fo_ports::{BlockError, Blocks};
use std::alloc::Global;

/// Makes a leaf that a source has, or the one behind its last, ready to be changed, with its source linked, and gives its address. The block
/// with the source's entry is damaged where it has another entry than is wanted, or one that waits to be cleared, or where the source has
/// to grow and something stands behind its end.
pub fn ready_leaf<B: Blocks>(alloc: Global, on: &mut B, wanted: LeafOf) -> Result<u32, BlockError>
    requires holder { IsHolder (B.state on.old) wanted.at wanted.slot }
    requires wanted { IsWanted wanted }
    requires pins { 20 ≤ (B.state on.old).pins_left }
    requires spare { 10 ≤ (B.state on.old).spare }
    requires silent { (B.state on.old).tells → ⊥ }
    ensures own { IfOk result (λ leaf. IsOwnLeaf (B.state on.new) wanted.tag wanted.is_dir leaf) }
    ensures readied { IfOk result (λ leaf. (m : B) × Readied (B.state on.old) (B.state m) (B.state on.new) wanted leaf) }
    ensures nothing { OnErr result (Looks (B.state on.old) (B.state on.new)) }
    ensures apart { OnOk result (((B.state on.old).label wanted.at).tag ≢ wanted.tag) }
    ensures alters { Alters wanted.at (λ k. k ≡ wanted.slot) (λ t. t ≡ wanted.tag) (IsAbove wanted.tag wanted.is_dir) none (B.state on.old) (B.state on.new) }
    ensures spare { (B.state on.old).spare ≤ (B.state on.new).spare + 10 }
    ensures pins { (B.state on.old).pins_left ≤ (B.state on.new).pins_left + 20 }
    ensures room { (B.state on.new).room ≡ (B.state on.old).room }
    ensures cause { IfErr result (Caused ⊥ (λ b. (B.state on.old).is_block b ⊎ (b ≡ 1)) (Rose (B.state on.old).faults (B.state on.new).faults) (Rose (B.state on.old).arena_faults (B.state on.new).arena_faults)) }
    ensures dirties { IfOk result (λ leaf. AddsDirty 20 (wanted.at ∷ []) leaf (B.state on.old) (B.state on.new)) }
    ensures keeps { B.keeps on.old on.new }
{
    let mut source = match source_for(alloc, on, wanted) {
        Ok(source) => source,
        Err(why) => return Err(why),
    };
    let LeafOf { at, slot, leaf, .. } = wanted;
    if !may_grow(on, &source, leaf) {
        return Err(BlockError::Damaged(at));
    }
    Ok(own_grown(&mut source, on, leaf, at, slot))
}
