//! A leaf of a source that has no block is made current.
ghost use Rattle.std.specs.Prelude.{◌≡◌, ◌≢◌, ◌⊎◌, ◌+◌, ◌-◌, ◌*◌, ◌%◌, ◌<◌, ◌≤◌, ℕ};
ghost use Rattle.fo_image.specs.declared.types.Pointer.TheVariants.{Nil};
ghost use Rattle.fo_sparse.specs.Written.{resized};
ghost use Rattle.fo_ports.specs.Sources.{Changes, Grows, Owned, Dirties, depth_for};
ghost use Rattle.fo_tree_raise.specs.of_tree_read.Tree.{kind_at};
ghost use Rattle.fo_tree_leaf.specs.of_tree_look.Source.{Over, HasBlock, Prepared, IsTopCurrent, form_of, leaves_of};
ghost use Rattle.fo_tree_leaf.specs.of_tree_down.Clear.{EndsClear};
ghost use Rattle.fo_tree_leaf.specs.of_tree_down.Way.{IsTopOf, with_top};
ghost use Rattle.fo_tree_leaf.specs.of_tree_down.Alike.{KeepsAlike};
ghost use Rattle.fo_tree_leaf.specs.of_tree_own.Shown.{ShowsNoMore};
ghost use Rattle.fo_tree_grow.specs.Grow.{shaped};

use fo_base::BLOCK;
use fo_image::least_depth;
use fo_ports::Blocks;
use fo_tree_leaf::{Current, Kept, own_within};
use fo_tree_raise::Tree;

/// Makes leaf `i` of a source without a block current, past its end, with which the source ends then and of which it has the least
/// depth. It gives the leaf's address and that of the top, which is put nowhere yet.
pub fn own_first<B: Blocks>(tree: &Tree, kept: &[Kept], on: &mut B, i: u32) -> Current
    requires over { (limit : ℕ) × Over (B.state on.old) tree.now kept.now limit × (8192 * (i + 1) ≤ limit) }
    requires past { tree.now.size < 8192 * (i + 1) }
    requires empty { tree.now.top ≡ Nil }
    requires spare { depth_for (8192 * (i + 1)) < (B.state on.old).spare }
    ensures owned { (generation limit : ℕ) → Owned (form_of tree.now generation limit) tree.now.size i result.at (B.state on.old) (B.state on.new) (leaves_of (B.state on.old) tree.now kept.now limit) (leaves_of (B.state on.new) (with_top (shaped tree.now (depth_for (8192 * (i + 1))) (8192 * (i + 1))) result.top) kept.now limit) }
    ensures bytes { (B.state on.old).tells → (limit : ℕ) → (leaves_of (B.state on.new) (with_top (shaped tree.now (depth_for (8192 * (i + 1))) (8192 * (i + 1))) result.top) kept.now limit).bytes ≡ resized (leaves_of (B.state on.old) tree.now kept.now limit).bytes (8192 * (i + 1)) }
    ensures top { IsTopOf (B.state on.old) (B.state on.new) tree.now result.top }
    ensures over { (limit : ℕ) → 8192 * (i + 1) ≤ limit → Over (B.state on.old) tree.now kept.now limit → Over (B.state on.new) (with_top (shaped tree.now (depth_for (8192 * (i + 1))) (8192 * (i + 1))) result.top) kept.now limit }
    ensures grows { (limit : ℕ) → Grows (B.state on.old) (B.state on.new) (leaves_of (B.state on.old) tree.now kept.now limit) (leaves_of (B.state on.new) (with_top (shaped tree.now (depth_for (8192 * (i + 1))) (8192 * (i + 1))) result.top) kept.now limit) }
    ensures changes { Changes tree.now.tag (HasBlock (B.state on.old) tree.now) (λ b. HasBlock (B.state on.old) tree.now b × (((B.state on.old).label b).kind ≢ kind_at tree.now.dir 0)) (B.state on.old) (B.state on.new) }
    ensures spare { (B.state on.old).spare ≤ (B.state on.new).spare + (depth_for (8192 * (i + 1)) + 1) }
    ensures dirties { Dirties (2 * (depth_for (8192 * (i + 1)) + 1)) (λ b. b ≡ result.at) (B.state on.old) (B.state on.new) }
    ensures current { IsTopCurrent (B.state on.new) (with_top (shaped tree.now (depth_for (8192 * (i + 1))) (8192 * (i + 1))) result.top) }
    ensures clear { EndsClear (B.state on.new) (with_top (shaped tree.now (depth_for (8192 * (i + 1))) (8192 * (i + 1))) result.top) kept.now }
    ensures room { (B.state on.new).room ≡ (B.state on.old).room }
    ensures shown { ShowsNoMore (B.state on.old).may_leave (B.state on.new).may_leave }
    ensures alike { KeepsAlike (B.state on.old) (B.state on.new) tree.now (with_top (shaped tree.now (depth_for (8192 * (i + 1))) (8192 * (i + 1))) result.top) }
    ensures keeps { B.keeps on.old on.new }
{
    let end = BLOCK as u64 * (i as u64 + 1);
    let grown = with_shape(tree, least_depth(end), end);
    own_within(&grown, kept, on, i)
}

/// The tree of a source of another depth and size.
fn with_shape(tree: &Tree, depth: u8, size: u64) -> Tree
    ensures { result ≡ shaped tree.now depth size }
{
    Tree {
        dir: tree.dir,
        tag: tree.tag,
        rank: tree.rank,
        depth,
        size,
        top: tree.top,
    }
}
