//! A piece is put into a source, within its end or past it.
ghost use Rattle.std.specs.Prelude.{◌≡◌, ◌≢◌, ◌⊎◌, ◌+◌, ◌*◌, ◌/◌, ◌<◌, ◌≤◌, ℕ, length, max};
ghost use Rattle.fo_image.specs.declared.types.Pointer.{Pointer};
ghost use Rattle.fo_image.specs.declared.types.Pointer.TheVariants.{Local};
ghost use Rattle.fo_sparse.specs.Written.{written};
ghost use Rattle.fo_ports.specs.State.{none};
ghost use Rattle.fo_ports.specs.Sources.{Changes, Dirties, Grows, ComesFor, most_for};
ghost use Rattle.fo_tree_look.specs.Source.{Over, HasBlock, IsPlainTree, Prepared, leaves_of};
ghost use Rattle.fo_tree_clear.specs.of_tree_down.Clear.{EndsClear};
ghost use Rattle.fo_tree_clear.specs.of_tree_own.Shown.{ShowsNoMore};
ghost use Rattle.fo_tree_append.specs.Append.{with_piece, OnPiece, PutsPiece};

use crate::past::put_past;
use fo_image::Pointer;
use fo_ports::Blocks;
use fo_tree_look::Kept;
use fo_tree_read::Tree;
use fo_tree_write::put_within;

/// Puts a piece in the place of the bytes from the offset on, and gives the pointer to the source's top; a new top is put nowhere yet. Where
/// the piece ends past the source's end the source ends with it then, with zeros between the end that there was and it, and has the levels
/// for it; nothing stands behind its end. An empty piece changes nothing; else only blocks on the ways to the leaves of the piece and, where
/// it ends past the source's end, to the leaf within which that was are changed.
pub fn put_piece<B: Blocks>(
    tree: &Tree,
    kept: &[Kept],
    on: &mut B,
    offset: u64,
    piece: &[u8],
) -> Pointer
    requires over { (limit : ℕ) × Over (B.state on.old) tree.now kept.now limit × Prepared (B.state on.old) tree.now kept.now limit offset (length piece.now) }
    requires plain { IsPlainTree tree.now }
    requires clear { tree.now.size < offset + length piece.now → EndsClear (B.state on.old) tree.now kept.now }
    requires spare { most_for (max tree.now.size (offset + length piece.now)) (length piece.now) ≤ (B.state on.old).spare }
    ensures over { (limit : ℕ) → offset + length piece.now ≤ limit → Over (B.state on.old) tree.now kept.now limit → Over (B.state on.new) (with_piece tree.now offset (length piece.now) result) kept.now limit }
    ensures bytes { (B.state on.old).tells → (limit : ℕ) → (leaves_of (B.state on.new) (with_piece tree.now offset (length piece.now) result) kept.now limit).bytes ≡ written (leaves_of (B.state on.old) tree.now kept.now limit).bytes offset piece.now }
    ensures grows { (limit : ℕ) → Grows (B.state on.old) (B.state on.new) (leaves_of (B.state on.old) tree.now kept.now limit) (leaves_of (B.state on.new) (with_piece tree.now offset (length piece.now) result) kept.now limit) }
    ensures comes { (B.state on.old).tells → (from : Pointer) → ComesFor (B.state on.old) tree.now.top from → ComesFor (B.state on.new) result from }
    ensures only { (B.state on.old).tells → (y x : ℕ) → (B.state on.new).instead y x → (result ≡ Local y) ⊎ ((B.state on.old).instead y x × (tree.now.top ≡ Local y → ⊥)) }
    ensures clear { (B.state on.old).tells ⊎ ((tree.now.size ≤ 8192 * (offset / 8192 + 1)) × (offset + length piece.now ≤ 8192 * (offset / 8192 + 1))) → EndsClear (B.state on.old) tree.now kept.now → EndsClear (B.state on.new) (with_piece tree.now offset (length piece.now) result) kept.now }
    ensures changes { Changes tree.now.tag (HasBlock (B.state on.old) tree.now) (HasBlock (B.state on.old) tree.now) (B.state on.old) (B.state on.new) }
    ensures only_ways { Changes tree.now.tag (HasBlock (B.state on.old) tree.now) (λ b. OnPiece (B.state on.old) tree.now offset (length piece.now) b) (B.state on.old) (B.state on.new) }
    ensures spare { (B.state on.old).spare ≤ (B.state on.new).spare + most_for (max tree.now.size (offset + length piece.now)) (length piece.now) }
    ensures dirties { Dirties (2 * most_for (max tree.now.size (offset + length piece.now)) (length piece.now)) none (B.state on.old) (B.state on.new) }
    ensures room { (B.state on.new).room ≡ (B.state on.old).room }
    ensures shown { ShowsNoMore (B.state on.old).may_leave (B.state on.new).may_leave }
    ensures keeps { B.keeps on.old on.new }
{
    put_any(tree, kept, on, offset, piece)
}

/// Puts a piece.
fn put_any<B: Blocks>(tree: &Tree, kept: &[Kept], on: &mut B, offset: u64, piece: &[u8]) -> Pointer
    requires over { (limit : ℕ) × Over (B.state on.old) tree.now kept.now limit × Prepared (B.state on.old) tree.now kept.now limit offset (length piece.now) }
    requires plain { IsPlainTree tree.now }
    requires clear { tree.now.size < offset + length piece.now → EndsClear (B.state on.old) tree.now kept.now }
    requires spare { most_for (max tree.now.size (offset + length piece.now)) (length piece.now) ≤ (B.state on.old).spare }
    ensures puts { PutsPiece (B.state on.old) (B.state on.new) tree.now (with_piece tree.now offset (length piece.now) result) kept.now offset piece.now }
    ensures dirties { Dirties (2 * most_for (max tree.now.size (offset + length piece.now)) (length piece.now)) none (B.state on.old) (B.state on.new) }
    ensures shown { ShowsNoMore (B.state on.old).may_leave (B.state on.new).may_leave }
    ensures keeps { B.keeps on.old on.new }
{
    if piece.is_empty() {
        return tree.top;
    }
    let end = offset + piece.len() as u64;
    if end <= tree.size {
        put_within(tree, kept, on, offset, piece)
    } else {
        put_past(tree, kept, on, offset, piece)
    }
}
