//! A source is seen with a size past its end, with zeros behind that end.
ghost use Rattle.std.specs.Prelude.{◌≡◌, ◌⊎◌, ◌+◌, ◌*◌, ◌<◌, ◌≤◌, ℕ};
ghost use Rattle.fo_ports.specs.State.{none};
ghost use Rattle.fo_ports.specs.Sources.{Dirties, depth_for};
ghost use Rattle.fo_tree_look.specs.Source.{Over, IsPlainTree};
ghost use Rattle.fo_tree_down.specs.Way.{with_top};
ghost use Rattle.fo_tree_down.specs.Clear.{EndsClear};
ghost use Rattle.fo_tree_trim.specs.of_tree_own.Shown.{ShowsNoMore};
ghost use Rattle.fo_tree_append.specs.Append.{ended};
ghost use Rattle.fo_tree_append.specs.Grown.{GrownTo};

use crate::raise::raise_to;
use fo_image::Pointer;
use fo_ports::Blocks;
use fo_tree_append::tree_clear::clear_tail;
use fo_tree_look::Kept;
use fo_tree_read::Tree;

/// The tree of a source once it has this size, which is past its end. Zeros are put behind that end, in the leaf within which it is, while
/// that is the last one; then levels are put above its top where it has too few.
pub(crate) fn grow_to<B: Blocks>(tree: &Tree, kept: &[Kept], on: &mut B, size: u64) -> Tree
    requires over { (limit : ℕ) × Over (B.state on.old) tree.now kept.now limit × (size ≤ limit) }
    requires plain { IsPlainTree tree.now }
    requires past { tree.now.size < size }
    requires clear { EndsClear (B.state on.old) tree.now kept.now }
    requires spare { depth_for size < (B.state on.old).spare }
    ensures is { result ≡ ended tree.now size result.top }
    ensures grown { GrownTo (B.state on.old) (B.state on.new) tree.now result kept.now }
    ensures dirties { Dirties (2 * (depth_for size + 1)) none (B.state on.old) (B.state on.new) }
    ensures shown { ShowsNoMore (B.state on.old).may_leave (B.state on.new).may_leave }
    ensures keeps { B.keeps on.old on.new }
{
    let cleared = clear_tail(tree, kept, on);
    match cleared {
        None => raise_to(tree, kept, on, size),
        Some(end) => {
            let here = below_top(tree, end.top);
            raise_to(&here, kept, on, size)
        }
    }
}

/// The tree of a source below another top.
fn below_top(tree: &Tree, top: u32) -> Tree
    ensures { result ≡ with_top tree.now top }
{
    Tree {
        dir: tree.dir,
        tag: tree.tag,
        rank: tree.rank,
        depth: tree.depth,
        size: tree.size,
        top: Pointer::Local(top),
    }
}
