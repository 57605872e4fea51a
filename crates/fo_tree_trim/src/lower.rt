//! A source gets another end within it.
ghost use Rattle.std.specs.Prelude.{◌≡◌, ◌-◌, ◌^◌, ◌<◌, ◌≤◌, ℕ, take};
ghost use Rattle.fo_image.specs.declared.types.Pointer.TheVariants.{Local};
ghost use Rattle.fo_crash.specs.Images.{Reaches, to_block};
ghost use Rattle.fo_ports.specs.Sources.{depth_for};
ghost use Rattle.fo_tree_read.specs.Tree.{block_at};
ghost use Rattle.fo_tree_look.specs.Source.{Over, WayReady, leaves_of};
ghost use Rattle.fo_tree_down.specs.Clear.{last_leaf};
ghost use Rattle.fo_tree_trim.specs.Trim.{lower_tree};

use crate::here::pointer_here;
use fo_image::least_depth;
use fo_ports::Blocks;
use fo_tree_look::Kept;
use fo_tree_read::Tree;

/// The tree of a source that hangs from block 1 with an end within it, and the least depth for that end. Its top is the block on the way to
/// the first leaf; what stands above it is left. Nothing is done to the blocks.
pub fn lowered<B: Blocks>(tree: &Tree, kept: &[Kept], on: &B, end: u64) -> Tree
    requires over { (limit : ℕ) × Over (B.state on.now) tree.now kept.now limit }
    requires end { (0 < end) × (end ≤ tree.now.size) }
    requires ready { WayReady (B.state on.now) tree.now kept.now tree.now.depth (last_leaf end) }
    requires linked { (B.state on.now).tells → (b : ℕ) → tree.now.top ≡ Local b → Reaches (B.state on.now).now (to_block 1) b }
    ensures tree { result ≡ lower_tree (B.state on.now) tree.now kept.now end }
    ensures over { (limit : ℕ) → Over (B.state on.now) tree.now kept.now limit → Over (B.state on.now) (lower_tree (B.state on.now) tree.now kept.now end) kept.now limit }
    ensures leaves { (B.state on.now).tells → (i : ℕ) → i < 409 ^ depth_for end → block_at (B.state on.now) (lower_tree (B.state on.now) tree.now kept.now end) (depth_for end) i ≡ block_at (B.state on.now) tree.now tree.now.depth i }
    ensures bytes { (B.state on.now).tells → (limit : ℕ) → (leaves_of (B.state on.now) (lower_tree (B.state on.now) tree.now kept.now end) kept.now limit).bytes ≡ take end (leaves_of (B.state on.now) tree.now kept.now limit).bytes }
    ensures ready { WayReady (B.state on.now) (lower_tree (B.state on.now) tree.now kept.now end) kept.now (depth_for end) (last_leaf end) }
    ensures linked { (B.state on.now).tells → (b : ℕ) → (lower_tree (B.state on.now) tree.now kept.now end).top ≡ Local b → Reaches (B.state on.now).now (to_block 1) b }
    ensures tops { (n b : ℕ) → n < tree.now.depth - depth_for end → block_at (B.state on.now) tree.now n 0 ≡ Local b → (B.state on.now).pinned b }
{
    let depth = least_depth(end);
    let top = pointer_here(tree, kept, on, tree.depth - depth, 0);
    Tree {
        dir: tree.dir,
        tag: tree.tag,
        rank: tree.rank,
        depth,
        size: end,
        top,
    }
}
