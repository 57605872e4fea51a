//! What a source that was opened and prepared says of its blocks.
ghost use Rattle.std.specs.Prelude.{◌≡◌, ◌+◌, ◌*◌, ◌^◌, ◌≤◌, ℕ, Some};
ghost use Rattle.fo_image.specs.declared.types.Pointer.TheVariants.{Local};
ghost use Rattle.fo_tree_read.specs.Tree.{kind_at};
ghost use Rattle.fo_tree_look.specs.Source.{Over, Prepared, IsPrepared, address_here};
ghost use Rattle.fo_tree_shorten.specs.of_tree_open.Open.{IsFit, tree_of};
ghost use Rattle.fo_tree_shorten.specs.of_tree_link.Link.{entry_of};

use fo_files_at::tree::Source;
use fo_image::Entry;
use fo_ports::Blocks;

/// Where leaf `i` of a source is prepared, its top is, and the block in which the leaf stands: pinned, live, and with a label of the source's
/// kind and tag.
pub fn prepared_blocks<B: Blocks>(source: &Source, on: &B, i: u32)
    requires over { Over (B.state on.now) source.now.ways.tree source.now.ways.kept.items source.now.ways.limit }
    requires prepared { Prepared (B.state on.now) source.now.ways.tree source.now.ways.kept.items source.now.ways.limit (8192 * i) 8192 }
    ensures top { (b : ℕ) → source.now.ways.tree.top ≡ Local b → IsPrepared (B.state on.now) (kind_at source.now.ways.tree.dir source.now.ways.tree.depth) source.now.ways.tree.tag b }
    ensures leaf { (b : ℕ) → address_here (B.state on.now) source.now.ways.tree i ≡ Some b → IsPrepared (B.state on.now) (kind_at source.now.ways.tree.dir 0) source.now.ways.tree.tag b }
{}

/// The source that was opened from an entry has this entry.
pub fn opened_entry(entry: &Entry, tag: u32, rank: u32, limit: u64)
    requires { IsFit entry.now tag limit }
    ensures { entry_of (tree_of entry.now rank) entry.now.generation ≡ entry.now }
{}
