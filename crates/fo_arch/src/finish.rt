//! The root of the archive.
ghost use Rattle.std.specs.Prelude.{◌≡◌, ℕ, List, length, IfErr, MatchResult};
ghost use Rattle.fo_disk.specs.Disk.{Since};
ghost use Rattle.venti_store.specs.Held.{Recovers};
ghost use Rattle.venti_store.specs.Arena.{lines_of, Keeps, Settled, HasCauses, IsWriteOrSync};

use crate::archive::{Archive, TOP};
use fo_disk::{Disk, DiskFault};
use fo_image::Score;
use fo_vacput::{EMPTY, VacRoot, write_vac_root};
use venti_store::{Arena, ArenaError};

/// The kind of the root of an archive.
const ROOT: u8 = 16;

/// Settles all that was put.
fn settle<A: Disk>(arena: &mut Arena<A>) -> Result<(), ArenaError>
    ensures lines { lines_of arena.new.shelf ≡ lines_of arena.old.shelf }
    ensures keeps { (stored : List (List ℕ)) (synced : ℕ) → Keeps arena.old.shelf stored synced (A.state arena.old.device)
        → MatchResult result (λ _. Keeps arena.new.shelf stored (length stored) (A.state arena.new.device) × Settled (lines_of arena.new.shelf) stored (A.state arena.new.device).holds)
        (λ _. Keeps arena.new.shelf stored synced (A.state arena.new.device)) }
    ensures moments { (stored : List (List ℕ)) (synced : ℕ) → Keeps arena.old.shelf stored synced (A.state arena.old.device)
        → Since (A.state arena.old.device).moments (A.state arena.new.device).moments (Recovers synced (lines_of arena.old.shelf) stored) }
    ensures blocks { arena.new.shelf.blocks ≡ arena.old.shelf.blocks }
    ensures cause { HasCauses (A.faults arena.old.device) (A.faults arena.new.device) result }
    ensures fault { IfErr result IsWriteOrSync }
{
    match arena.sync() {
        Ok(()) => Ok(()),
        Err(DiskFault::Sync) => Err(ArenaError::ArenaSync),
        Err(_) => Err(ArenaError::ArenaWrite),
    }
}

impl Archive {
    ghost use Rattle.std.specs.Prelude.{[], Some, IfOk};
    ghost use Rattle.fo_image.specs.Format.{IsScore};
    ghost use Rattle.fo_arch_form.specs.Stored.{found};
    ghost use Rattle.fo_arch.specs.Archive.{HasWhole};
    ghost use Rattle.fo_arch.specs.Forms.{AreNamed};
    ghost use Rattle.fo_arch.specs.Stores.{IsMore, Stores};
    ghost use Rattle.fo_arch.specs.Finish.{IsRootOf, Finishes, FinishRefused, IsFinished};

    /// The score of the top block.
    fn top(&self) -> Score
        requires { HasWhole self.now }
        ensures found { found self.now.done self.now.root 17 ≡ Some result }
        ensures score { IsScore result.0 }
    {
        match self.done.score(self.root, TOP) {
            Some(score) => score,
            None => EMPTY,
        }
    }

    /// The bytes of the root.
    fn root_bytes(&self) -> [u8; 300]
        requires { HasWhole self.now }
        ensures root { IsRootOf self.now result }
        ensures length { length result ≡ 300 }
    {
        let root = VacRoot {
            epoch: self.epoch,
            time: self.time,
            top: self.top(),
            prev: self.prev,
        };
        let mut bytes = [0; 300];
        write_vac_root(&root, &mut bytes);
        bytes
    }

    /// Puts the root of the archive, once all of the snapshot is stored, and syncs. The archive stays, so it may be finished again.
    pub fn finish<A: Disk>(&self, arena: &mut Arena<A>) -> Result<Score, ArenaError>
        requires whole { HasWhole self.now }
        ensures score { IfOk result (Finishes self.now (lines_of arena.old.shelf) (lines_of arena.new.shelf)) }
        ensures refused { IfErr result (FinishRefused self.now arena.old.shelf arena.new.shelf (A.state arena.old.device) (A.state arena.new.device)) }
        ensures named { AreNamed self.now.done (lines_of arena.old.shelf) → AreNamed self.now.done (lines_of arena.new.shelf) }
        ensures lines { IsMore (lines_of arena.old.shelf) (lines_of arena.new.shelf) }

        // Over a device that tells what it holds: once it is Ok, the arena is quiet, and holds the root and all that was stored.
        ensures keeps { (stored : List (List ℕ)) (synced : ℕ) → Keeps arena.old.shelf stored synced (A.state arena.old.device)
            → MatchResult result (IsFinished self.now arena.old.shelf arena.new.shelf stored synced (A.state arena.old.device).moments (A.state arena.new.device))
            (λ _. Stores [] self.now.done self.now.done arena.old.shelf arena.new.shelf stored synced (A.state arena.old.device).moments (A.state arena.new.device)) }

        ensures blocks { arena.new.shelf.blocks ≡ arena.old.shelf.blocks }
        ensures cause { HasCauses (A.faults arena.old.device) (A.faults arena.new.device) result }
    {
        let bytes = self.root_bytes();
        let score = arena.put(ROOT, &bytes)?;
        settle(arena)?;
        Ok(score)
    }
}
