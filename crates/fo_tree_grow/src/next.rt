//! A leaf past the end of a source is made current, where its levels have room for it.
ghost use Rattle.std.specs.Prelude.{◌≡◌, ◌≢◌, ◌⊎◌, ◌+◌, ◌-◌, ◌*◌, ◌%◌, ◌<◌, ◌≤◌, ℕ};
ghost use Rattle.fo_sparse.specs.Written.{resized};
ghost use Rattle.fo_ports.specs.Sources.{Made, Changes, Grows, Owned, Dirties, depth_for};
ghost use Rattle.fo_tree_raise.specs.of_tree_read.Tree.{kind_at};
ghost use Rattle.fo_tree_leaf.specs.of_tree_look.Source.{Over, HasBlock, IsPlainTree, Prepared, WayReady, IsTopCurrent, form_of, leaves_of};
ghost use Rattle.fo_tree_leaf.specs.of_tree_down.Way.{OnWay, Descends, IsTopOf, with_top};
ghost use Rattle.fo_tree_leaf.specs.of_tree_down.Clear.{EndsClear};
ghost use Rattle.fo_tree_leaf.specs.of_tree_down.Alike.{KeepsAlike};
ghost use Rattle.fo_tree_leaf.specs.of_tree_own.Shown.{ShowsNoMore};
ghost use Rattle.fo_tree_grow.specs.Grow.{sized, TailClear};

use fo_base::BLOCK;
use fo_ports::Blocks;
use fo_tree_leaf::{Current, Kept, own_within};
use fo_tree_raise::Tree;

/// Makes leaf `i` current, with which the source ends then, and gives its address and that of the top, which is put nowhere yet where it
/// is new. Nothing stands behind the end.
pub fn own_next<B: Blocks>(tree: &Tree, kept: &[Kept], on: &mut B, i: u32) -> Current
    requires over { (limit : ℕ) × Over (B.state on.old) tree.now kept.now limit × Prepared (B.state on.old) tree.now kept.now limit (8192 * i) 8192 }
    requires past { tree.now.size < 8192 * (i + 1) }
    requires levels { tree.now.depth ≡ depth_for (8192 * (i + 1)) }
    requires clear { EndsClear (B.state on.old) tree.now kept.now }
    requires tail { TailClear (B.state on.old) tree.now kept.now }
    requires spare { (IsTopCurrent (B.state on.old) tree.now × (tree.now.depth ≤ (B.state on.old).spare)) ⊎ (tree.now.depth < (B.state on.old).spare) }
    ensures owned { (generation limit : ℕ) → Owned (form_of tree.now generation limit) tree.now.size i result.at (B.state on.old) (B.state on.new) (leaves_of (B.state on.old) tree.now kept.now limit) (leaves_of (B.state on.new) (with_top (sized tree.now (8192 * (i + 1))) result.top) kept.now limit) }
    ensures bytes { (B.state on.old).tells → IsPlainTree tree.now ⊎ (tree.now.size % 8192 ≡ 0) → (limit : ℕ) → (leaves_of (B.state on.new) (with_top (sized tree.now (8192 * (i + 1))) result.top) kept.now limit).bytes ≡ resized (leaves_of (B.state on.old) tree.now kept.now limit).bytes (8192 * (i + 1)) }
    ensures top { IsTopOf (B.state on.old) (B.state on.new) tree.now result.top }
    ensures over { (limit : ℕ) → 8192 * (i + 1) ≤ limit → Over (B.state on.old) tree.now kept.now limit → Over (B.state on.new) (with_top (sized tree.now (8192 * (i + 1))) result.top) kept.now limit }
    ensures grows { (limit : ℕ) → Grows (B.state on.old) (B.state on.new) (leaves_of (B.state on.old) tree.now kept.now limit) (leaves_of (B.state on.new) (with_top (sized tree.now (8192 * (i + 1))) result.top) kept.now limit) }
    ensures changes { Changes tree.now.tag (HasBlock (B.state on.old) tree.now) (λ b. HasBlock (B.state on.old) tree.now b × (((B.state on.old).label b).kind ≢ kind_at tree.now.dir 0)) (B.state on.old) (B.state on.new) }
    ensures spare { (B.state on.old).spare ≤ (B.state on.new).spare + (tree.now.depth + 1) }
    ensures dirties { Dirties (2 * (tree.now.depth + 1)) (λ b. b ≡ result.at) (B.state on.old) (B.state on.new) }
    ensures less { IsTopCurrent (B.state on.old) tree.now → (B.state on.old).spare ≤ (B.state on.new).spare + tree.now.depth }
    ensures current { IsTopCurrent (B.state on.new) (with_top (sized tree.now (8192 * (i + 1))) result.top) }
    ensures clear { EndsClear (B.state on.new) (with_top (sized tree.now (8192 * (i + 1))) result.top) kept.now }
    ensures descends { Descends (sized tree.now (8192 * (i + 1))) (OnWay (B.state on.old) (sized tree.now (8192 * (i + 1))) tree.now.depth i) 0 (B.state on.old) (B.state on.new) }
    ensures ways { (j b : ℕ) → WayReady (B.state on.old) (sized tree.now (8192 * (i + 1))) kept.now tree.now.depth j → OnWay (B.state on.new) (with_top (sized tree.now (8192 * (i + 1))) result.top) tree.now.depth j b → OnWay (B.state on.old) (sized tree.now (8192 * (i + 1))) tree.now.depth j b ⊎ Made (B.state on.old) (B.state on.new) b }
    ensures stays { (B.state on.old).tells → (b : ℕ) → HasBlock (B.state on.old) tree.now b → ((B.state on.old).label b).epoch ≡ (B.state on.old).high → HasBlock (B.state on.new) (with_top (sized tree.now (8192 * (i + 1))) result.top) b }
    ensures room { (B.state on.new).room ≡ (B.state on.old).room }
    ensures shown { ShowsNoMore (B.state on.old).may_leave (B.state on.new).may_leave }
    ensures alike { KeepsAlike (B.state on.old) (B.state on.new) tree.now (with_top (sized tree.now (8192 * (i + 1))) result.top) }
    ensures keeps { B.keeps on.old on.new }
{
    let grown = with_size(tree, BLOCK as u64 * (i as u64 + 1));
    own_within(&grown, kept, on, i)
}

/// The tree of a source of another size.
fn with_size(tree: &Tree, size: u64) -> Tree
    ensures { result ≡ sized tree.now size }
{
    Tree {
        dir: tree.dir,
        tag: tree.tag,
        rank: tree.rank,
        depth: tree.depth,
        size,
        top: tree.top,
    }
}
