//! What stands behind the end of a source is cleared.
ghost use Rattle.std.specs.Prelude.{◌≡◌, ◌⊎◌, ◌+◌, ◌-◌, ◌*◌, ◌/◌, ◌%◌, ◌^◌, ◌<◌, ◌≤◌, ℕ, List};
ghost use Rattle.std.specs.List.{Contains};
ghost use Rattle.fo_image.specs.declared.types.Pointer.TheVariants.{Nil};
ghost use Rattle.fo_crash.specs.Images.{Image, Reaches, target, to_block};
ghost use Rattle.fo_crash.specs.Steps.{AllAre};
ghost use Rattle.fo_ports.specs.Blocks.{IsInner};
ghost use Rattle.fo_ports.specs.Sources.{ComesFor, DirtiesIn, Grows};
ghost use Rattle.fo_ports.specs.State.{MayRemoveSlot};
ghost use Rattle.fo_tree_look.specs.Source.{Over, WayReady, leaves_of};
ghost use Rattle.fo_tree_down.specs.Clear.{EndsClear, last_leaf};
ghost use Rattle.fo_tree_down.specs.Way.{IsWayIndex, WayCurrent};
ghost use Rattle.fo_tree_down.specs.of_tree_own.Shown.{ShowsNoMore};
ghost use Rattle.fo_tree_trim.specs.Behind.{IsPast};
ghost use Rattle.fo_tree_trim.specs.Cut.{CutsOne, CutSlot, Cuts, MayCut};
ghost use Rattle.fo_tree_trim.specs.Trim.{LeavesStay, Shows, IsEndCurrent, OnEnd};

use crate::clear::{LEAF, is_nil};
use crate::here::{SLOTS, pointer_here};
use fo_image::Pointer;
use fo_ports::Blocks;
use fo_tree_look::Kept;
use fo_tree_read::Tree;

/// Clears each slot behind the end of a source, in the blocks above its last leaf, which are current and hang from block 1. Each takes one
/// unit of room. What the source has stays, and each image has it, too, where all was settled before: an image may have some of these slots
/// cleared, also one in which the source's entry isn't yet what memory has.
pub fn cut_behind<B: Blocks>(tree: &Tree, kept: &[Kept], on: &mut B)
    requires over { (limit : ℕ) × Over (B.state on.old) tree.now kept.now limit }
    requires ready { 0 < tree.now.size → WayReady (B.state on.old) tree.now kept.now tree.now.depth (last_leaf tree.now.size) }
    requires current { IsEndCurrent (B.state on.old) tree.now }
    requires may { (B.state on.old).tells → MayCut (B.state on.old) tree.now (last_leaf tree.now.size) }
    requires room { 409 * tree.now.depth ≤ (B.state on.old).room }
    ensures clear { EndsClear (B.state on.new) tree.now kept.now }
    ensures over { (limit : ℕ) → Over (B.state on.old) tree.now kept.now limit → Over (B.state on.new) tree.now kept.now limit }
    ensures leaves { (B.state on.old).tells → LeavesStay (B.state on.old) (B.state on.new) tree.now tree.now (last_leaf tree.now.size) }
    ensures bytes { (B.state on.old).tells → (limit : ℕ) → (leaves_of (B.state on.new) tree.now kept.now limit).bytes ≡ (leaves_of (B.state on.old) tree.now kept.now limit).bytes }
    ensures grows { (limit : ℕ) → Grows (B.state on.old) (B.state on.new) (leaves_of (B.state on.old) tree.now kept.now limit) (leaves_of (B.state on.new) tree.now kept.now limit) }
    ensures comes { (B.state on.old).tells → ComesFor (B.state on.old) tree.now.top tree.now.top → ComesFor (B.state on.new) tree.now.top tree.now.top }
    ensures cuts { Cuts (CutSlot (B.state on.old) tree.now (last_leaf tree.now.size) (409 * tree.now.depth)) (B.state on.old) (B.state on.new) }
    ensures gone { (B.state on.old).tells → (b : ℕ) → IsPast (B.state on.old) tree.now (last_leaf tree.now.size) b → (Reaches (B.state on.new).now (to_block 1) b → ⊥) × (B.state on.new).covered b }
    ensures shows { (B.state on.old).tells → AllAre (B.state on.old).now (B.state on.old).may_leave → (image : Image) → (B.state on.new).may_leave image → Shows (B.state on.old) image tree.now (last_leaf tree.now.size) }
    ensures dirties { (first : B) (blocks : List ℕ) → DirtiesIn blocks (B.state first) (B.state on.old) → ((b : ℕ) → OnEnd (B.state on.old) tree.now b → Contains blocks b) → DirtiesIn blocks (B.state first) (B.state on.new) }
    ensures room { (B.state on.old).room ≤ (B.state on.new).room + 409 * tree.now.depth }
    ensures shown { ShowsNoMore (B.state on.old).may_leave (B.state on.new).may_leave }
    ensures keeps { B.keeps on.old on.new }
{
    if tree.depth == 0 {
        return;
    }
    cut_slots(tree, kept, on, (tree.size - 1) / LEAF);
}

/// Clears each slot behind the way to a leaf, in the blocks above it, which are current: from the lowest level up.
fn cut_slots<B: Blocks>(tree: &Tree, kept: &[Kept], on: &mut B, last: u64)
    requires over { (limit : ℕ) × Over (B.state on.old) tree.now kept.now limit }
    requires deep { 0 < tree.now.depth }
    requires few { last < 409 ^ tree.now.depth }
    requires ready { WayReady (B.state on.old) tree.now kept.now tree.now.depth last }
    requires current { WayCurrent (B.state on.old) tree.now (tree.now.depth - 1) (last / 409) }
    requires may { (B.state on.old).tells → MayCut (B.state on.old) tree.now last }
    requires room { 409 * tree.now.depth ≤ (B.state on.old).room }
    ensures cuts { Cuts (CutSlot (B.state on.old) tree.now last (409 * tree.now.depth)) (B.state on.old) (B.state on.new) }
    ensures room { (B.state on.old).room ≤ (B.state on.new).room + 409 * tree.now.depth }
    ensures keeps { B.keeps on.old on.new }
{
    for x in 0..SLOTS as u32 * tree.depth as u32 {
        let down = tree.depth - 1 - (x / SLOTS as u32) as u8;
        let next = index_at(tree.depth, last, down + 1);
        let i = x % SLOTS as u32;
        if i as u64 > next % SLOTS {
            let above = pointer_here(tree, kept, on, down, next / SLOTS);
            if let Pointer::Local(at) = above {
                cut_slot(on, at, i);
            }
        }
    }
}

/// The number of the block on the way to block `k` of those `n` steps below the top that stands so many steps below it.
fn index_at(n: u8, k: u64, down: u8) -> u64
    requires down { down ≤ n }
    ensures { IsWayIndex n k down result }
{
    if n == down {
        return k;
    }
    index_at(n - 1, k / SLOTS, down)
}

/// Clears a slot of a block of pointers, where it leads anywhere.
fn cut_slot<B: Blocks>(on: &mut B, at: u32, i: u32)
    requires pinned { (B.state on.old).pinned at }
    requires current { ((B.state on.old).label at).epoch ≡ (B.state on.old).high }
    requires inner { IsInner ((B.state on.old).label at).kind }
    requires slot { i < 409 }
    requires room { 0 < (B.state on.old).room }
    requires may { (B.state on.old).tells → MayRemoveSlot (B.state on.old) at i }
    ensures cut { CutsOne at i (B.state on.old) (B.state on.new) ⊎ ((target (((B.state on.old).now at).slot i) ≡ Nil) × (on.new ≡ on.old)) }
    ensures keeps { B.keeps on.old on.new }
{
    if !is_nil(on.slot(at, i).target()) {
        on.remove_slot(at, i, None);
    }
}
