//! A source of bytes as a tree of blocks.
ghost use Rattle.std.specs.Prelude.{◌≡◌, ◌+◌, ◌*◌, ◌^◌, ◌≤◌, max};
ghost use Rattle.fo_ports.specs.Sources.{depth_for};
ghost use Rattle.fo_tree_append.specs.of_tree_lift.Owns.{with_leaf};
ghost use Rattle.fo_tree_append.specs.of_tree_write.Write.{at_top};
ghost use Rattle.fo_tree_append.specs.Append.{ended};

use fo_base::BLOCK;
use fo_image::{Pointer, least_depth};
use fo_tree_look::Ways;
use fo_tree_read::Tree;

/// A source of bytes: where it hangs, and what was fetched for it.
#[derive(Drop)]
pub struct Source {
    pub ways: Ways,
}

/// The depth of a tree for so many bytes.
fn depth_of(size: u64) -> u8
    requires low { size ≤ 2 ^ 47 }
    ensures { result ≡ depth_for size }
{
    least_depth(size)
}

/// The tree below this pointer.
pub(crate) fn at_top(tree: &Tree, top: Pointer) -> Tree
    ensures { result ≡ at_top tree.now top }
{
    Tree {
        dir: tree.dir,
        tag: tree.tag,
        rank: tree.rank,
        depth: tree.depth,
        size: tree.size,
        top,
    }
}

/// The tree of a source of this size, below this pointer.
pub(crate) fn ended(tree: &Tree, size: u64, top: Pointer) -> Tree
    requires low { size ≤ 2 ^ 47 }
    ensures { result ≡ ended tree.now size top }
{
    Tree {
        dir: tree.dir,
        tag: tree.tag,
        rank: tree.rank,
        depth: depth_of(size),
        size,
        top,
    }
}

/// The tree of a source that ends with leaf `i` or behind it, below this top.
pub(crate) fn with_leaf(tree: &Tree, i: u32, top: u32) -> Tree
    requires low { max tree.now.size (8192 * (i + 1)) ≤ 2 ^ 47 }
    ensures { result ≡ with_leaf tree.now i top }
{
    let size = tree.size.max(BLOCK as u64 * (i as u64 + 1));
    ended(tree, size, Pointer::Local(top))
}
