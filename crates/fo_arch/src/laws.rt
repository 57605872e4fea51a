//! Laws of archives. Each function does nothing: its contract is the law, so that the law is proved with the crate.
ghost use Rattle.std.specs.Prelude.{◌≡◌, ◌≢◌, ℕ, List, None};
ghost use Rattle.std.specs.List.{AllByRecursion};
ghost use Rattle.fo_image.specs.declared.types.Kind.{Kind};
ghost use Rattle.fo_image.specs.declared.types.ArenaLine.{ArenaLine};
ghost use Rattle.fo_image.specs.Format.{KindHolds};
ghost use Rattle.fo_crash.specs.Images.{Image, SameContent};
ghost use Rattle.fo_arch_hash.specs.Batch.{IsSame};
ghost use Rattle.fo_arch_hash.specs.declared.types.Batch.{Batch};
ghost use Rattle.fo_arch_hash.specs.declared.types.Piece.{Piece};
ghost use Rattle.fo_arch_form.specs.declared.stored.Stored.{Stored};
ghost use Rattle.fo_arch_form.specs.Stored.{found};
ghost use Rattle.fo_arch_walk.specs.Pieces.{IsPiece, IsPieceOf};
ghost use Rattle.fo_arch_walk.specs.Spots.{arena_code};
ghost use Rattle.fo_arch.specs.declared.archive.Archive.{Archive};
ghost use Rattle.fo_arch.specs.Archive.{IsOf};
ghost use Rattle.fo_arch_tree.specs.Forms.{StoresForms};

use fo_ports::Blocks;

/// Where the device tells, the pieces of a batch are the forms of what memory has.
pub fn pieces_are_of_memory<B: Blocks>(on: &B)
    ensures { (done : Stored) (root : ℕ) (pieces : List Piece) → (B.state on.now).tells → AllByRecursion (IsPiece done (B.state on.now) root) pieces → AllByRecursion (IsPieceOf done (B.state on.now).now) pieces }
{}

/// The forms that are held of an image are those of each image that has the same at the addresses of the blocks that were stored.
pub fn forms_are_of_stored_blocks()
    ensures { (done : Stored) (image other : Image) (lines : List ArenaLine) (stored : List (List ℕ)) → ((at : ℕ) (kind : Kind) → KindHolds kind → found done at (arena_code kind) ≢ None → SameContent (other at) (image at)) → StoresForms done image lines stored → StoresForms done other lines stored }
{}

/// What says the same as a batch of an archive is one, too.
pub fn copies_are_of_the_archive()
    ensures { (a : Archive) (b c : Batch) → IsSame c b → IsOf a b → IsOf a c }
{}
