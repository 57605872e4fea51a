//! Where the blocks of a source stand.
ghost use Rattle.std.specs.Prelude.{◌≡◌, ◌≤◌, ◌*◌, ◌^◌, ℕ, true};
ghost use Rattle.fo_image.specs.Format.{kind_code};
ghost use Rattle.fo_tree_read.specs.Tree.{kind_at};
ghost use Rattle.fo_tree_look.specs.Source.{IsPlainTree};

use fo_image::{BLOCK, Kind};
use fo_tree_read::Tree;

/// How many bytes a leaf has, and how many pointers a block.
pub(crate) const LEAF: u64 = BLOCK as u64;

pub(crate) const SLOTS: u64 = 409;

/// The kind of a block of a source at this level.
pub(crate) fn kind_at(dir: bool, level: u8) -> Kind
    ensures { result ≡ kind_at dir level }
{
    if dir {
        Kind::Dir(level)
    } else {
        Kind::Data(level)
    }
}

/// The number by which the kind of a block of a source is known where it is held.
pub(crate) fn kind_number(dir: bool, level: u8) -> u8
    requires { level ≤ 4 }
    ensures { result ≡ kind_code (kind_at dir level) }
{
    if dir { 8 + level } else { level }
}

/// Whether the leaves hold neither entries nor records.
pub(crate) fn is_plain(tree: &Tree) -> bool
    ensures is { result ≡ true → IsPlainTree tree.now }
    ensures all { IsPlainTree tree.now → result ≡ true }
{
    !tree.dir && tree.rank % 32 != 16
}
