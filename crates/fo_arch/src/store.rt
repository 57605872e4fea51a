//! Pieces are put into the arena.
ghost use Rattle.std.specs.Prelude.{◌≡◌, ◌<◌, ℕ, List, [], ◌∷◌, length, None, IfOk, IfErr, MatchResult};
ghost use Rattle.fo_disk.specs.Disk.{Content, DiskState};
ghost use Rattle.venti_store.specs.Arena.{lines_of, Keeps, PutsLine, PutRefuses, HasCauses};
ghost use Rattle.fo_arch_hash.specs.Batch.{score_of, kept};
ghost use Rattle.fo_arch_form.specs.Stored.{found, count_of, Adds};
ghost use Rattle.fo_arch_walk.specs.Pieces.{AreFresh, AreApart};
ghost use Rattle.fo_arch.specs.Archive.{IsOf, IsSameSnapshot};
ghost use Rattle.fo_arch.specs.Forms.{AreNamed, StoresMore};
ghost use Rattle.fo_arch.specs.Stores.{IsMore, IsNoted, MayPut, PutsAll, Took, HeldRefuses, StoreRefused, Stores};
ghost use Rattle.std.specs.Prelude.{map};

use crate::archive::Archive;
use fo_arch_form::Stored;
use fo_arch_hash::{Hashed, Piece};
use fo_disk::Disk;
use fo_image::Score;
use venti_store::{Arena, ArenaError};

/// Puts a piece, and notes its score.
fn store_piece<A: Disk>(
    done: &mut Stored,
    arena: &mut Arena<A>,
    piece: &Piece,
    score: Score,
) -> Result<(), ArenaError>
    requires hashed { score ≡ score_of piece.now }
    requires fresh { found done.old piece.now.at piece.now.kind ≡ None }
    ensures noted { MatchResult result (λ _. IsNoted piece.now done.old done.new) (λ _. ((at kind : ℕ) → found done.new at kind ≡ found done.old at kind) × (count_of done.new ≡ count_of done.old)) }
    ensures refused { IfErr result (PutRefuses arena.new.shelf.blocks (lines_of arena.new.shelf) piece.now.kind piece.now.bytes.items) }
    ensures named { AreNamed done.old (lines_of arena.old.shelf) → AreNamed done.new (lines_of arena.new.shelf) }
    ensures puts { MatchResult result (λ _. PutsLine piece.now.kind piece.now.bytes.items (lines_of arena.old.shelf) (lines_of arena.new.shelf)) (MayPut piece.now (lines_of arena.old.shelf) (lines_of arena.new.shelf)) }
    ensures told { (stored : List (List ℕ)) (synced : ℕ) → Keeps arena.old.shelf stored synced (A.state arena.old.device) → IfErr result (HeldRefuses piece.now.kind piece.now.bytes.items arena.new.shelf stored synced (A.state arena.new.device)) }
    ensures lines { IsMore (lines_of arena.old.shelf) (lines_of arena.new.shelf) }
    ensures keeps { (stored : List (List ℕ)) (synced : ℕ) → Keeps arena.old.shelf stored synced (A.state arena.old.device)
        → Stores (piece.now ∷ []) done.old done.new arena.old.shelf arena.new.shelf stored synced (A.state arena.old.device).moments (A.state arena.new.device) }
    ensures blocks { arena.new.shelf.blocks ≡ arena.old.shelf.blocks }
    ensures cause { HasCauses (A.faults arena.old.device) (A.faults arena.new.device) result }
{
    arena.put_hashed(score, piece.kind, &piece.bytes)?;
    match done.add(piece.at, piece.kind, score) {
        Ok(()) => Ok(()),
        Err(_) => Err(ArenaError::Memory),
    }
}

/// Puts the pieces of a batch in their order.
fn store_pieces<A: Disk>(
    done: &mut Stored,
    arena: &mut Arena<A>,
    hashed: &Hashed,
) -> Result<(), ArenaError>
    requires fresh { AreFresh done.old (map kept hashed.now.batch.pieces.items) }
    requires apart { AreApart (map kept hashed.now.batch.pieces.items) }
    ensures took { MatchResult result (λ _. Took hashed.now.batch.pieces.items (length hashed.now.batch.pieces.items) done.old done.new) (StoreRefused hashed.now.batch.pieces.items done.old done.new arena.old.shelf arena.new.shelf (A.state arena.old.device) (A.state arena.new.device)) }
    ensures more { StoresMore done.old done.new }
    ensures puts { IfOk result (λ _. PutsAll hashed.now.batch.pieces.items (lines_of arena.old.shelf) (length hashed.now.batch.pieces.items) (lines_of arena.new.shelf)) }
    ensures named { AreNamed done.old (lines_of arena.old.shelf) → AreNamed done.new (lines_of arena.new.shelf) }
    ensures lines { IsMore (lines_of arena.old.shelf) (lines_of arena.new.shelf) }
    ensures keeps { (stored : List (List ℕ)) (synced : ℕ) → Keeps arena.old.shelf stored synced (A.state arena.old.device)
        → Stores hashed.now.batch.pieces.items done.old done.new arena.old.shelf arena.new.shelf stored synced (A.state arena.old.device).moments (A.state arena.new.device) }
    ensures blocks { arena.new.shelf.blocks ≡ arena.old.shelf.blocks }
    ensures cause { HasCauses (A.faults arena.old.device) (A.faults arena.new.device) result }
{
    let pieces = &hashed.batch.pieces;
    for i in 0..pieces.len() {
        store_piece(done, arena, &pieces[i], hashed.scores[i])?;
    }
    Ok(())
}

impl Archive {
    /// Puts the pieces of a batch of this archive, as it is now, in their order. Where one is refused, those in front of it are stored,
    /// and a new batch is to be read.
    pub fn store<A: Disk>(
        &mut self,
        arena: &mut Arena<A>,
        hashed: &Hashed,
    ) -> Result<(), ArenaError>
        requires of { IsOf self.old hashed.now.batch }
        // Each piece is stored under its score; or those in front of one that is refused by its cause, and no other is put, but maybe that
        // one, where there was no memory to note it.
        ensures took { MatchResult result (λ _. Took hashed.now.batch.pieces.items (length hashed.now.batch.pieces.items) self.old.done self.new.done) (StoreRefused hashed.now.batch.pieces.items self.old.done self.new.done arena.old.shelf arena.new.shelf (A.state arena.old.device) (A.state arena.new.device)) }
        ensures more { StoresMore self.old.done self.new.done }
        ensures rest { IsSameSnapshot self.old self.new }

        // Over any device a piece that is held takes no place, each other takes the next, and nothing else does.
        ensures puts { IfOk result (λ _. PutsAll hashed.now.batch.pieces.items (lines_of arena.old.shelf) (length hashed.now.batch.pieces.items) (lines_of arena.new.shelf)) }

        // Over any device the index names all that was stored.
        ensures named { AreNamed self.old.done (lines_of arena.old.shelf) → AreNamed self.new.done (lines_of arena.new.shelf) }
        ensures lines { IsMore (lines_of arena.old.shelf) (lines_of arena.new.shelf) }

        // Over a device that tells what it holds, the forms of all that was stored are held.
        ensures keeps { (stored : List (List ℕ)) (synced : ℕ) → Keeps arena.old.shelf stored synced (A.state arena.old.device)
            → Stores hashed.now.batch.pieces.items self.old.done self.new.done arena.old.shelf arena.new.shelf stored synced (A.state arena.old.device).moments (A.state arena.new.device) }

        ensures blocks { arena.new.shelf.blocks ≡ arena.old.shelf.blocks }
        ensures cause { HasCauses (A.faults arena.old.device) (A.faults arena.new.device) result }
    {
        store_pieces(&mut self.done, arena, hashed)
    }
}
