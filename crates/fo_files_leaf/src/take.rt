//! A leaf behind the end of a source of entries is taken in.
ghost use Rattle.std.specs.Prelude.{◌≡◌, ◌⊎◌, ◌+◌, ◌*◌, ◌<◌, ◌≤◌, ◌^◌, ℕ, true, IfErr, OnOk, OnErr, ◌∷◌, []};
ghost use Rattle.fo_base.specs.Cause.{Rose};
ghost use Rattle.fo_ports.specs.Causes.{Caused};
ghost use Rattle.fo_ports.specs.State.{Looks, none};
ghost use Rattle.fo_ports.specs.Sources.{AddsDirty, DirtiesIn, depth_for};
ghost use Rattle.fo_tree_shorten.specs.Shorten.{EntryAt};
ghost use Rattle.fo_files_leaf.specs.Alters.{Alters};
ghost use Rattle.fo_files_leaf.specs.Leaf.{IsHolder, IsWanted, IsAbove, IsFor, IsTrimmedFor, TakesIn, IsClean};

use crate::open::{LeafOf, may_grow, source_for};
use fo_base::BLOCK;
use fo_image::least_depth;
use fo_ports::{BlockError, Blocks};
use fo_tree::Source;
use std::alloc::Global;

/// How long a source is that ends with this leaf.
fn end_of(leaf: u32) -> u64
    ensures { result ≡ 8192 * (leaf + 1) }
{
    BLOCK as u64 * (leaf as u64 + 1)
}

/// Whether a source of this depth and up to this length may end so: it has as many levels then.
fn has_place(depth: u8, limit: u64, end: u64) -> bool
    requires low { limit ≤ 2 ^ 47 }
    ensures { result ≡ true → (depth ≡ depth_for end) × (end ≤ limit) }
{
    end <= limit && least_depth(end) == depth
}

/// Puts the length of a source as if it had a leaf, and settles.
fn take_in<B: Blocks>(
    on: &mut B,
    source: &mut Source,
    leaf: u32,
    at: u32,
    slot: u32,
) -> Result<(), BlockError>
    requires source { IsFor (B.state on.old) source.old leaf }
    requires short { source.old.ways.tree.size < 8192 * (leaf + 1) }
    requires place { (source.old.ways.tree.depth ≡ depth_for (8192 * (leaf + 1))) × (8192 * (leaf + 1) ≤ source.old.ways.limit) }
    requires entry { EntryAt (B.state on.old) source.old.ways.tree source.old.ways.generation at slot }
    requires silent { (B.state on.old).tells → ⊥ }
    ensures tree { source.new.ways.tree ≡ record source.old.ways.tree { size = 8192 * (leaf + 1) } }
    ensures generation { source.new.ways.generation ≡ source.old.ways.generation }
    ensures entry { EntryAt (B.state on.new) source.new.ways.tree source.new.ways.generation at slot }
    ensures settled { OnOk result (IsClean (B.state on.new)) }
    ensures alters { Alters at (λ k. k ≡ slot) (λ t. t ≡ source.old.ways.tree.tag) (IsAbove source.old.ways.tree.tag source.old.ways.tree.dir) none (B.state on.old) (B.state on.new) }
    ensures room { ((B.state on.new).spare ≡ (B.state on.old).spare) × ((B.state on.new).pins_left ≡ (B.state on.old).pins_left) × ((B.state on.new).room ≡ (B.state on.old).room) }
    ensures cause { IfErr result (Caused ⊥ (λ b. ⊥) (Rose (B.state on.old).faults (B.state on.new).faults) ⊥) }
    ensures dirties { DirtiesIn (at ∷ []) (B.state on.old) (B.state on.new) }
    ensures keeps { B.keeps on.old on.new }
{
    source.ways.tree.size = end_of(leaf);
    source.link(on, at, slot);
    match on.settle() {
        Ok(()) => Ok(()),
        Err(why) => Err(why),
    }
}

/// Gives a source of entries that has to grow the leaf that stands behind its end, and settles: a crash may have left one there, before the
/// length was written. Its pairs are free, since a new leaf is settled before a pair is put into it. All is settled at once, so that no pair is
/// put there while an image may have the source without it.
pub fn take_behind<B: Blocks>(alloc: Global, on: &mut B, wanted: LeafOf) -> Result<(), BlockError>
    requires holder { IsHolder (B.state on.old) wanted.at wanted.slot }
    requires wanted { IsWanted wanted }
    requires pins { 20 ≤ (B.state on.old).pins_left }
    requires silent { (B.state on.old).tells → ⊥ }
    ensures trimmed { OnOk result (IsTrimmedFor (B.state on.new) wanted) }
    ensures taken { OnOk result (Looks (B.state on.old) (B.state on.new) ⊎ (TakesIn (B.state on.old) (B.state on.new) wanted × IsClean (B.state on.new))) }
    ensures refused { OnErr result (Looks (B.state on.old) (B.state on.new) ⊎ TakesIn (B.state on.old) (B.state on.new) wanted) }
    ensures alters { Alters wanted.at (λ k. k ≡ wanted.slot) (λ t. t ≡ wanted.tag) (IsAbove wanted.tag wanted.is_dir) none (B.state on.old) (B.state on.new) }
    ensures pins { (B.state on.old).pins_left ≤ (B.state on.new).pins_left + 20 }
    ensures spare { (B.state on.new).spare ≡ (B.state on.old).spare }
    ensures room { (B.state on.new).room ≡ (B.state on.old).room }
    ensures cause { IfErr result (Caused ⊥ (λ b. (B.state on.old).is_block b ⊎ (b ≡ 1)) (Rose (B.state on.old).faults (B.state on.new).faults) (Rose (B.state on.old).arena_faults (B.state on.new).arena_faults)) }
    ensures dirties { AddsDirty 0 (wanted.at ∷ []) wanted.at (B.state on.old) (B.state on.new) }
    ensures keeps { B.keeps on.old on.new }
{
    let mut source = match source_for(alloc, on, wanted) {
        Ok(source) => source,
        Err(why) => return Err(why),
    };
    let LeafOf { at, slot, leaf, .. } = wanted;
    if may_grow(on, &source, leaf) {
        return Ok(());
    }
    if !has_place(source.ways.tree.depth, source.ways.limit, end_of(leaf)) {
        return Err(BlockError::Damaged(at));
    }
    match take_in(on, &mut source, leaf, at, slot) {
        Ok(()) => Ok(()),
        Err(why) => Err(why),
    }
}
