//! The blocks above the last leaf of a source are made current.
ghost use Rattle.std.specs.Prelude.{◌≡◌, ◌≢◌, ◌⊎◌, ◌+◌, ◌-◌, ◌*◌, ◌/◌, ◌≤◌, ◌<◌, ℕ};
ghost use Rattle.fo_ports.specs.Sources.{Changes, Dirties, Grows, Made};
ghost use Rattle.fo_tree_read.specs.Tree.{kind_at};
ghost use Rattle.fo_tree_look.specs.Source.{Over, HasBlock, WayReady, IsTopCurrent, leaves_of};
ghost use Rattle.fo_tree_down.specs.Way.{IsTopOf, StaysBeside, with_top};
ghost use Rattle.fo_tree_down.specs.Clear.{last_leaf};
ghost use Rattle.fo_tree_down.specs.of_tree_own.Shown.{ShowsNoMore};
ghost use Rattle.fo_tree_trim.specs.Behind.{IsPast};
ghost use Rattle.fo_tree_trim.specs.Trim.{LeavesStay, IsEndCurrent, OnEnd};

use crate::clear::LEAF;
use crate::here::SLOTS;
use fo_ports::Blocks;
use fo_tree_down::own_way;
use fo_tree_look::Kept;
use fo_tree_read::Tree;

/// Makes the blocks above the last leaf of a source current, so that what stands behind its end can be cleared in them once the source is
/// linked, and gives the address of the top, which is put nowhere yet where it is new. The leaves stay, and so does all beside the way to the
/// last of them, and each block that is current.
pub fn own_end<B: Blocks>(tree: &Tree, kept: &[Kept], on: &mut B) -> u32
    requires over { (limit : ℕ) × Over (B.state on.old) tree.now kept.now limit }
    requires deep { 0 < tree.now.depth }
    requires ready { WayReady (B.state on.old) tree.now kept.now tree.now.depth (last_leaf tree.now.size) }
    requires spare { (IsTopCurrent (B.state on.old) tree.now × (tree.now.depth ≤ (B.state on.old).spare + 1)) ⊎ (tree.now.depth ≤ (B.state on.old).spare) }
    ensures top { IsTopOf (B.state on.old) (B.state on.new) tree.now result }
    ensures current { IsEndCurrent (B.state on.new) (with_top tree.now result) }
    ensures ready { WayReady (B.state on.new) (with_top tree.now result) kept.now tree.now.depth (last_leaf tree.now.size) }
    ensures over { (limit : ℕ) → Over (B.state on.old) tree.now kept.now limit → Over (B.state on.new) (with_top tree.now result) kept.now limit }
    ensures leaves { (B.state on.old).tells → LeavesStay (B.state on.old) (B.state on.new) tree.now (with_top tree.now result) (last_leaf tree.now.size) }
    ensures behind { (B.state on.old).tells → (b : ℕ) → IsPast (B.state on.old) tree.now (last_leaf tree.now.size) b → IsPast (B.state on.new) (with_top tree.now result) (last_leaf tree.now.size) b }
    ensures bytes { (B.state on.old).tells → (limit : ℕ) → (leaves_of (B.state on.new) (with_top tree.now result) kept.now limit).bytes ≡ (leaves_of (B.state on.old) tree.now kept.now limit).bytes }
    ensures grows { (limit : ℕ) → Grows (B.state on.old) (B.state on.new) (leaves_of (B.state on.old) tree.now kept.now limit) (leaves_of (B.state on.new) (with_top tree.now result) kept.now limit) }
    ensures beside { (B.state on.old).tells → StaysBeside (B.state on.old) (B.state on.new) tree.now (with_top tree.now result) (tree.now.depth - 1) (last_leaf tree.now.size / 409) }
    ensures owns { (B.state on.old).tells → (b : ℕ) → HasBlock (B.state on.new) (with_top tree.now result) b → HasBlock (B.state on.old) tree.now b ⊎ Made (B.state on.old) (B.state on.new) b }
    ensures stays { (B.state on.old).tells → (b : ℕ) → HasBlock (B.state on.old) tree.now b → ((B.state on.old).label b).epoch ≡ (B.state on.old).high → HasBlock (B.state on.new) (with_top tree.now result) b }
    ensures changes { Changes tree.now.tag (HasBlock (B.state on.old) tree.now) (λ b. HasBlock (B.state on.old) tree.now b × (((B.state on.old).label b).kind ≢ kind_at tree.now.dir 0)) (B.state on.old) (B.state on.new) }
    ensures spare { (B.state on.old).spare ≤ (B.state on.new).spare + tree.now.depth }
    ensures less { IsTopCurrent (B.state on.old) tree.now → (B.state on.old).spare ≤ (B.state on.new).spare + (tree.now.depth - 1) }
    ensures dirties { Dirties (2 * tree.now.depth) (OnEnd (B.state on.new) (with_top tree.now result)) (B.state on.old) (B.state on.new) }
    ensures room { (B.state on.new).room ≡ (B.state on.old).room }
    ensures shown { ShowsNoMore (B.state on.old).may_leave (B.state on.new).may_leave }
    ensures keeps { B.keeps on.old on.new }
{
    let last = (tree.size - 1) / LEAF;
    own_way(tree, kept, on, tree.depth - 1, last / SLOTS).top
}
