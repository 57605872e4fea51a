//! A leaf below the end of a source is made current.
ghost use Rattle.std.specs.Prelude.{◌≡◌, ◌≢◌, ◌⊎◌, ◌+◌, ◌*◌, ◌≤◌, ℕ};
ghost use Rattle.fo_tree_look.specs.of_ports.Sources.{Made, Changes, Grows, Owned, Dirties, most_to_own, IsEnough};
ghost use Rattle.fo_tree_look.specs.of_tree_read.Tree.{kind_at};
ghost use Rattle.fo_tree_look.specs.Source.{Over, HasBlock, Prepared, WayReady, IsTopCurrent, form_of, leaves_of};
ghost use Rattle.fo_tree_down.specs.Alike.{KeepsAlike};
ghost use Rattle.fo_tree_down.specs.Clear.{EndsClear, last_leaf};
ghost use Rattle.fo_tree_down.specs.Way.{OnWay, Descends, IsTopOf, with_top};
ghost use Rattle.fo_tree_down.specs.of_tree_own.Shown.{ShowsNoMore};

use fo_tree_down::{Current, own_way};
use fo_tree_look::{Blocks, Kept, Tree};

/// Makes leaf `i` current, which ends within the source, and gives its address and that of the top, which is put nowhere yet where it is
/// new.
pub fn own_within<B: Blocks>(tree: &Tree, kept: &[Kept], on: &mut B, i: u32) -> Current
    requires over { (limit : ℕ) × Over (B.state on.old) tree.now kept.now limit × Prepared (B.state on.old) tree.now kept.now limit (8192 * i) 8192 }
    requires within { 8192 * (i + 1) ≤ tree.now.size }
    requires spare { IsEnough (IsTopCurrent (B.state on.old) tree.now) tree.now.size i (B.state on.old).spare }
    ensures owned { (generation limit : ℕ) → Owned (form_of tree.now generation limit) tree.now.size i result.at (B.state on.old) (B.state on.new) (leaves_of (B.state on.old) tree.now kept.now limit) (leaves_of (B.state on.new) (with_top tree.now result.top) kept.now limit) }
    ensures bytes { (B.state on.old).tells → (limit : ℕ) → (leaves_of (B.state on.new) (with_top tree.now result.top) kept.now limit).bytes ≡ (leaves_of (B.state on.old) tree.now kept.now limit).bytes }
    ensures top { IsTopOf (B.state on.old) (B.state on.new) tree.now result.top }
    ensures over { (limit : ℕ) → Over (B.state on.old) tree.now kept.now limit → Over (B.state on.new) (with_top tree.now result.top) kept.now limit }
    ensures grows { (limit : ℕ) → Grows (B.state on.old) (B.state on.new) (leaves_of (B.state on.old) tree.now kept.now limit) (leaves_of (B.state on.new) (with_top tree.now result.top) kept.now limit) }
    ensures still { (limit o n : ℕ) → Prepared (B.state on.old) tree.now kept.now limit o n → Prepared (B.state on.new) (with_top tree.now result.top) kept.now limit o n }
    ensures changes { Changes tree.now.tag (HasBlock (B.state on.old) tree.now) (λ b. HasBlock (B.state on.old) tree.now b × (((B.state on.old).label b).kind ≢ kind_at tree.now.dir 0)) (B.state on.old) (B.state on.new) }
    ensures spare { (B.state on.old).spare ≤ (B.state on.new).spare + most_to_own tree.now.size i }
    ensures dirties { Dirties (2 * most_to_own tree.now.size i) (λ b. b ≡ result.at) (B.state on.old) (B.state on.new) }
    ensures less { IsTopCurrent (B.state on.old) tree.now → (B.state on.old).spare + 1 ≤ (B.state on.new).spare + most_to_own tree.now.size i }
    ensures current { IsTopCurrent (B.state on.new) (with_top tree.now result.top) }
    ensures clear { (B.state on.old).tells ⊎ (i ≡ last_leaf tree.now.size) → EndsClear (B.state on.old) tree.now kept.now → EndsClear (B.state on.new) (with_top tree.now result.top) kept.now }
    ensures descends { Descends tree.now (OnWay (B.state on.old) tree.now tree.now.depth i) 0 (B.state on.old) (B.state on.new) }
    ensures ways { (j b : ℕ) → WayReady (B.state on.old) tree.now kept.now tree.now.depth j → OnWay (B.state on.new) (with_top tree.now result.top) tree.now.depth j b → OnWay (B.state on.old) tree.now tree.now.depth j b ⊎ Made (B.state on.old) (B.state on.new) b }
    ensures stays { (B.state on.old).tells → (b : ℕ) → HasBlock (B.state on.old) tree.now b → ((B.state on.old).label b).epoch ≡ (B.state on.old).high → HasBlock (B.state on.new) (with_top tree.now result.top) b }
    ensures room { (B.state on.new).room ≡ (B.state on.old).room }
    ensures shown { ShowsNoMore (B.state on.old).may_leave (B.state on.new).may_leave }
    ensures alike { KeepsAlike (B.state on.old) (B.state on.new) tree.now (with_top tree.now result.top) }
    ensures keeps { B.keeps on.old on.new }
{
    own_way(tree, kept, on, tree.depth, i as u64)
}
