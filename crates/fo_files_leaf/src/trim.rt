//! What stands behind the end of a source of records is cleared.
ghost use Rattle.std.specs.Prelude.{◌≡◌, ◌≢◌, ◌⊎◌, ◌+◌, ◌*◌, ◌^◌, ◌<◌, ◌≤◌, ℕ, true, false, IfErr, OnOk, ◌∷◌, []};
ghost use Rattle.fo_base.specs.Cause.{Rose};
ghost use Rattle.fo_ports.specs.Causes.{Caused};
ghost use Rattle.fo_ports.specs.State.{none};
ghost use Rattle.fo_tree_look.specs.Source.{Over, WayReady};
ghost use Rattle.fo_tree_shorten.specs.of_tree_down.Clear.{EndsClear, last_leaf};
ghost use Rattle.fo_tree_shorten.specs.Shorten.{EntryAt};
ghost use Rattle.fo_files_leaf.specs.Alters.{Alters};
ghost use Rattle.fo_files_leaf.specs.Leaf.{IsHolder, IsWanted, IsAbove, IsTrimmedFor};
ghost use Rattle.fo_ports.specs.Sources.{AddsDirty};

use crate::open::{LeafOf, may_grow, source_for};
use fo_ports::{BlockError, Blocks};
use fo_tree::Source;
use fo_tree_shorten::{cut, make_ready};
use std::alloc::Global;

/// Clears what stands behind the end of a source of records that was prepared, with a settling in between.
fn cut_behind<B: Blocks>(
    on: &mut B,
    source: &mut Source,
    at: u32,
    slot: u32,
) -> Result<(), BlockError>
    requires over { Over (B.state on.old) source.old.ways.tree source.old.ways.kept.items source.old.ways.limit }
    requires data { source.old.ways.tree.dir ≡ false }
    requires deep { 0 < source.old.ways.tree.depth }
    requires entry { EntryAt (B.state on.old) source.old.ways.tree source.old.ways.generation at slot }
    requires ready { WayReady (B.state on.old) source.old.ways.tree source.old.ways.kept.items source.old.ways.tree.depth (last_leaf source.old.ways.tree.size) }
    requires spare { 4 ≤ (B.state on.old).spare }
    requires room { 1636 ≤ (B.state on.old).room }
    requires silent { (B.state on.old).tells → ⊥ }
    ensures entry { EntryAt (B.state on.new) source.new.ways.tree source.new.ways.generation at slot }
    ensures clear { OnOk result (EndsClear (B.state on.new) source.new.ways.tree source.new.ways.kept.items) }
    ensures alters { Alters at (λ k. k ≡ slot) (λ t. t ≡ source.old.ways.tree.tag) (IsAbove source.old.ways.tree.tag false) none (B.state on.old) (B.state on.new) }
    ensures pins { (B.state on.new).pins_left ≡ (B.state on.old).pins_left }
    ensures spare { (B.state on.old).spare ≤ (B.state on.new).spare + 4 }
    ensures few { (B.state on.old).spare ≤ (B.state on.new).spare + source.old.ways.tree.depth }
    ensures room { (B.state on.old).room ≤ (B.state on.new).room + 1636 }
    ensures cause { IfErr result (Caused ⊥ (λ b. ⊥) (Rose (B.state on.old).faults (B.state on.new).faults) ⊥) }
    ensures dirties { AddsDirty (2 * source.old.ways.tree.depth) (at ∷ []) at (B.state on.old) (B.state on.new) }
    ensures keeps { B.keeps on.old on.new }
{
    make_ready(&mut source.ways, on, at, slot);
    match on.settle() {
        Ok(()) => {
            cut(&source.ways, on, at, slot);
            Ok(())
        }
        Err(why) => Err(why),
    }
}

/// Clears what stands behind the end of a source of records that has to grow to have a leaf. It takes a block a level of pointers: at most two
/// where the leaf is one of the first 409^2.
pub fn trim_records<B: Blocks>(alloc: Global, on: &mut B, wanted: LeafOf) -> Result<(), BlockError>
    requires holder { IsHolder (B.state on.old) wanted.at wanted.slot }
    requires wanted { IsWanted wanted }
    requires records { wanted.is_dir ≡ false }
    requires pins { 20 ≤ (B.state on.old).pins_left }
    requires spare { 4 ≤ (B.state on.old).spare }
    requires room { 1636 ≤ (B.state on.old).room }
    requires silent { (B.state on.old).tells → ⊥ }
    ensures trimmed { OnOk result (IsTrimmedFor (B.state on.new) wanted) }
    ensures alters { Alters wanted.at (λ k. k ≡ wanted.slot) (λ t. t ≡ wanted.tag) (IsAbove wanted.tag wanted.is_dir) none (B.state on.old) (B.state on.new) }
    ensures pins { (B.state on.old).pins_left ≤ (B.state on.new).pins_left + 20 }
    ensures spare { (B.state on.old).spare ≤ (B.state on.new).spare + 4 }
    ensures few { wanted.leaf < 409 ^ 2 → (B.state on.old).spare ≤ (B.state on.new).spare + 2 }
    ensures room { (B.state on.old).room ≤ (B.state on.new).room + 1636 }
    ensures cause { IfErr result (Caused ⊥ (λ b. (B.state on.old).is_block b ⊎ (b ≡ 1)) (Rose (B.state on.old).faults (B.state on.new).faults) (Rose (B.state on.old).arena_faults (B.state on.new).arena_faults)) }
    ensures dirties { AddsDirty 8 (wanted.at ∷ []) wanted.at (B.state on.old) (B.state on.new) }
    ensures dirties_few { wanted.leaf < 409 ^ 2 → AddsDirty 4 (wanted.at ∷ []) wanted.at (B.state on.old) (B.state on.new) }
    ensures keeps { B.keeps on.old on.new }
{
    let mut source = match source_for(alloc, on, wanted) {
        Ok(source) => source,
        Err(why) => return Err(why),
    };
    let LeafOf { at, slot, leaf, .. } = wanted;
    if may_grow(on, &source, leaf) {
        return Ok(());
    }
    match cut_behind(on, &mut source, at, slot) {
        Ok(()) => Ok(()),
        Err(why) => Err(why),
    }
}
