//! A piece is put past the end of a source.
ghost use Rattle.std.specs.Prelude.{◌≡◌, ◌≢◌, ◌⊎◌, ◌+◌, ◌*◌, ◌/◌, ◌<◌, ◌≤◌, ℕ, length};
ghost use Rattle.fo_image.specs.declared.types.Pointer.{Pointer};
ghost use Rattle.fo_image.specs.declared.types.Pointer.TheVariants.{Local};
ghost use Rattle.fo_sparse.specs.Written.{written};
ghost use Rattle.fo_ports.specs.State.{none};
ghost use Rattle.fo_ports.specs.Sources.{Changes, Dirties, Grows, ComesFor, most_for};
ghost use Rattle.fo_tree_look.specs.Source.{Over, HasBlock, IsPlainTree, Prepared, leaves_of};
ghost use Rattle.fo_tree_clear.specs.of_tree_down.Clear.{EndsClear};
ghost use Rattle.fo_tree_clear.specs.of_tree_own.Shown.{ShowsNoMore};
ghost use Rattle.fo_tree_append.specs.Append.{ended, OnPiece};

use crate::all::put_all;
use crate::grow::grow_to;
use fo_image::Pointer;
use fo_ports::Blocks;
use fo_tree_look::Kept;
use fo_tree_read::Tree;

/// Puts a piece in the place of the bytes from the offset on, past the end of the source, which ends with it then, and gives the pointer to
/// its top; a new top is put nowhere yet. Zeros stand between the end that there was and the piece, and the source has the levels for it.
/// Nothing stands behind its end; where the device tells, or the piece stays within a leaf, nothing does then. Only blocks on the ways to the
/// leaves of the piece and to the leaf within which the source ended are changed.
pub fn put_past<B: Blocks>(
    tree: &Tree,
    kept: &[Kept],
    on: &mut B,
    offset: u64,
    piece: &[u8],
) -> Pointer
    requires over { (limit : ℕ) × Over (B.state on.old) tree.now kept.now limit × Prepared (B.state on.old) tree.now kept.now limit offset (length piece.now) }
    requires plain { IsPlainTree tree.now }
    requires some { 0 < length piece.now }
    requires past { tree.now.size < offset + length piece.now }
    requires clear { EndsClear (B.state on.old) tree.now kept.now }
    requires spare { most_for (offset + length piece.now) (length piece.now) ≤ (B.state on.old).spare }
    ensures over { (limit : ℕ) → offset + length piece.now ≤ limit → Over (B.state on.old) tree.now kept.now limit → Over (B.state on.new) (ended tree.now (offset + length piece.now) result) kept.now limit }
    ensures bytes { (B.state on.old).tells → (limit : ℕ) → (leaves_of (B.state on.new) (ended tree.now (offset + length piece.now) result) kept.now limit).bytes ≡ written (leaves_of (B.state on.old) tree.now kept.now limit).bytes offset piece.now }
    ensures grows { (limit : ℕ) → Grows (B.state on.old) (B.state on.new) (leaves_of (B.state on.old) tree.now kept.now limit) (leaves_of (B.state on.new) (ended tree.now (offset + length piece.now) result) kept.now limit) }
    ensures comes { (B.state on.old).tells → (from : Pointer) → ComesFor (B.state on.old) tree.now.top from → ComesFor (B.state on.new) result from }
    ensures only { (B.state on.old).tells → (y x : ℕ) → (B.state on.new).instead y x → (result ≡ Local y) ⊎ ((B.state on.old).instead y x × (tree.now.top ≡ Local y → ⊥)) }
    ensures clear { (B.state on.old).tells ⊎ (offset + length piece.now ≤ 8192 * (offset / 8192 + 1)) → EndsClear (B.state on.new) (ended tree.now (offset + length piece.now) result) kept.now }
    ensures changes { Changes tree.now.tag (HasBlock (B.state on.old) tree.now) (HasBlock (B.state on.old) tree.now) (B.state on.old) (B.state on.new) }
    ensures only_ways { Changes tree.now.tag (HasBlock (B.state on.old) tree.now) (λ b. OnPiece (B.state on.old) tree.now offset (length piece.now) b) (B.state on.old) (B.state on.new) }
    ensures spare { (B.state on.old).spare ≤ (B.state on.new).spare + most_for (offset + length piece.now) (length piece.now) }
    ensures dirties { Dirties (2 * most_for (offset + length piece.now) (length piece.now)) none (B.state on.old) (B.state on.new) }
    ensures room { (B.state on.new).room ≡ (B.state on.old).room }
    ensures shown { ShowsNoMore (B.state on.old).may_leave (B.state on.new).may_leave }
    ensures keeps { B.keeps on.old on.new }
{
    let end = offset + piece.len() as u64;
    let grown = grow_to(tree, kept, on, end);
    put_all(&grown, kept, on, offset, piece)
}
