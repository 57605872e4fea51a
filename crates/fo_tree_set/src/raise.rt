//! A source is seen with a size past its end, with the levels for it.
ghost use Rattle.std.specs.Prelude.{◌≡◌, ◌≢◌, ◌⊎◌, ◌+◌, ◌-◌, ◌*◌, ◌^◌, ◌<◌, ◌≤◌, ℕ, true, false};
ghost use Rattle.fo_image.specs.declared.types.Pointer.TheVariants.{Nil};
ghost use Rattle.fo_ports.specs.State.{none};
ghost use Rattle.fo_ports.specs.Sources.{Dirties, depth_for};
ghost use Rattle.fo_tree_look.specs.Source.{Over, IsPlainTree, IsTopCurrent};
ghost use Rattle.fo_tree_down.specs.Clear.{EndsClear};
ghost use Rattle.fo_tree_trim.specs.of_tree_own.Shown.{ShowsNoMore};
ghost use Rattle.fo_tree_append.specs.Append.{ended};
ghost use Rattle.fo_tree_append.specs.Grown.{RaisedTo};

use fo_image::{Pointer, least_depth};
use fo_ports::Blocks;
use fo_tree_append::tree_lift::lift;
use fo_tree_look::Kept;
use fo_tree_read::Tree;

/// The tree of a source once it has this size, which is past its end: levels are put above its top where it has too few.
pub(crate) fn raise_to<B: Blocks>(tree: &Tree, kept: &[Kept], on: &mut B, size: u64) -> Tree
    requires over { (limit : ℕ) × Over (B.state on.old) tree.now kept.now limit × (size ≤ limit) }
    requires plain { IsPlainTree tree.now }
    requires past { tree.now.size < size }
    requires clear { EndsClear (B.state on.old) tree.now kept.now }
    requires spare { (IsTopCurrent (B.state on.old) tree.now × (depth_for size ≤ (B.state on.old).spare + tree.now.depth)) ⊎ (depth_for size < (B.state on.old).spare + tree.now.depth) }
    ensures is { result ≡ ended tree.now size result.top }
    ensures raised { RaisedTo (B.state on.old) (B.state on.new) tree.now result kept.now }
    ensures dirties { Dirties (2 * (depth_for size - tree.now.depth + 1)) none (B.state on.old) (B.state on.new) }
    ensures levels { IsTopCurrent (B.state on.old) tree.now → Dirties (2 * (depth_for size - tree.now.depth)) none (B.state on.old) (B.state on.new) }
    ensures shown { ShowsNoMore (B.state on.old).may_leave (B.state on.new).may_leave }
    ensures keeps { B.keeps on.old on.new }
{
    let depth = least_depth(size);
    if has_room(tree, depth) {
        return with_end(tree, size, tree.top);
    }
    let top = lift(tree, kept, on, depth - tree.depth);
    with_end(tree, size, top)
}

/// Whether a source needs no level more to have so many.
fn has_room(tree: &Tree, depth: u8) -> bool
    ensures yes { result ≡ true → (tree.now.depth ≡ depth) ⊎ (tree.now.top ≡ Nil) }
    ensures not { result ≡ false → (tree.now.depth ≢ depth) × (tree.now.top ≢ Nil) }
{
    tree.depth == depth || matches!(tree.top, Pointer::Nil)
}

/// The tree of a source of this size, with the least levels, below this top.
fn with_end(tree: &Tree, size: u64, top: Pointer) -> Tree
    requires low { size ≤ 2 ^ 47 }
    ensures { result ≡ ended tree.now size top }
{
    Tree {
        dir: tree.dir,
        tag: tree.tag,
        rank: tree.rank,
        depth: least_depth(size),
        size,
        top,
    }
}
