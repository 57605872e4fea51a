//! A piece is put below the end.
ghost use Rattle.std.specs.Prelude.{◌≡◌, ◌≢◌, ◌⊎◌, ◌+◌, ◌*◌, ◌/◌, ◌<◌, ◌≤◌, ℕ, length};
ghost use Rattle.fo_sparse.specs.Written.{written};
ghost use Rattle.fo_ports.specs.State.{none};
ghost use Rattle.fo_ports.specs.Sources.{Changes, Dirties, Grows, most_for, ComesFor};
ghost use Rattle.fo_image.specs.declared.types.Pointer.{Pointer};
ghost use Rattle.fo_image.specs.declared.types.Pointer.TheVariants.{Local};
ghost use Rattle.fo_tree_clear.specs.of_tree_down.Clear.{EndsClear};
ghost use Rattle.fo_tree_clear.specs.of_tree_look.Source.{Over, HasBlock, IsPlainTree, Prepared, leaves_of};
ghost use Rattle.fo_tree_clear.specs.of_tree_own.Shown.{ShowsNoMore};
ghost use Rattle.fo_tree_write.specs.Write.{at_top, OnWays};

use fo_base::BLOCK;
use fo_image::Pointer;
use fo_ports::Blocks;
use fo_tree_clear::{Kept, put_leaf};
use fo_tree_read::Tree;

/// How many bytes a leaf has.
const LEAF: u64 = BLOCK as u64;

/// Puts a piece in the place of the bytes from the offset on, all of which the source has, and gives the pointer to its top. Leaf by leaf,
/// each is made current first; a new top is put nowhere yet. What is clear behind the end stays so where the device tells, or the piece
/// begins in the last leaf. Only blocks on the ways to the leaves of the piece are changed.
pub fn put_within<B: Blocks>(
    tree: &Tree,
    kept: &[Kept],
    on: &mut B,
    offset: u64,
    piece: &[u8],
) -> Pointer
    requires over { (limit : ℕ) × Over (B.state on.old) tree.now kept.now limit × Prepared (B.state on.old) tree.now kept.now limit offset (length piece.now) }
    requires plain { IsPlainTree tree.now }
    requires within { offset + length piece.now ≤ tree.now.size }
    requires spare { most_for tree.now.size (length piece.now) ≤ (B.state on.old).spare }
    ensures over { (limit : ℕ) → Over (B.state on.old) tree.now kept.now limit → Over (B.state on.new) (at_top tree.now result) kept.now limit }
    ensures bytes { (B.state on.old).tells → (limit : ℕ) → (leaves_of (B.state on.new) (at_top tree.now result) kept.now limit).bytes ≡ written (leaves_of (B.state on.old) tree.now kept.now limit).bytes offset piece.now }
    ensures grows { (limit : ℕ) → Grows (B.state on.old) (B.state on.new) (leaves_of (B.state on.old) tree.now kept.now limit) (leaves_of (B.state on.new) (at_top tree.now result) kept.now limit) }
    ensures comes { (B.state on.old).tells → (from : Pointer) → ComesFor (B.state on.old) tree.now.top from → ComesFor (B.state on.new) result from }
    ensures only { (B.state on.old).tells → (y x : ℕ) → (B.state on.new).instead y x → (result ≡ Local y) ⊎ ((B.state on.old).instead y x × (tree.now.top ≡ Local y → ⊥)) }
    ensures clear { (B.state on.old).tells ⊎ (tree.now.size ≤ 8192 * (offset / 8192 + 1)) → EndsClear (B.state on.old) tree.now kept.now → EndsClear (B.state on.new) (at_top tree.now result) kept.now }
    ensures changes { Changes tree.now.tag (HasBlock (B.state on.old) tree.now) (HasBlock (B.state on.old) tree.now) (B.state on.old) (B.state on.new) }
    ensures only_ways { Changes tree.now.tag (HasBlock (B.state on.old) tree.now) (OnWays (B.state on.old) tree.now offset (length piece.now)) (B.state on.old) (B.state on.new) }
    ensures spare { (B.state on.old).spare ≤ (B.state on.new).spare + most_for tree.now.size (length piece.now) }
    ensures dirties { Dirties (2 * most_for tree.now.size (length piece.now)) none (B.state on.old) (B.state on.new) }
    ensures room { (B.state on.new).room ≡ (B.state on.old).room }
    ensures shown { ShowsNoMore (B.state on.old).may_leave (B.state on.new).may_leave }
    ensures keeps { B.keeps on.old on.new }
{
    let mut top = tree.top;
    let mut done = 0;
    while done < piece.len() {
        let place = offset + done as u64;
        let count = ((LEAF - place % LEAF) as usize).min(piece.len() - done);
        let here = Tree {
            dir: tree.dir,
            tag: tree.tag,
            rank: tree.rank,
            depth: tree.depth,
            size: tree.size,
            top,
        };
        let part = &piece[done..done + count];
        let current = put_leaf(&here, kept, on, place / LEAF, (place % LEAF) as u32, part);
        top = Pointer::Local(current.top);
        done += count;
    }
    top
}
