//! Blocks are fetched from an arena.
ghost use Rattle.std.specs.Prelude.{◌≡◌, ◌≤◌, ℕ, List, length, MatchResult, OnOk, OnErr, IfErr};
ghost use Rattle.fo_base.specs.Cause.{Rose};
ghost use Rattle.fo_ports.specs.Causes.{Caused};
ghost use Rattle.venti_store.specs.Arena.{lines_of, Keeps};
ghost use Rattle.fo_devices.specs.Fetched.{Fetched, FetchedHeld, FetchLacks, FetchRefuses};

use fo_disk::{Disk, DiskFault};
use fo_image::Score;
use fo_ports::BlockError;
use fo_vacput::grow;
use std::alloc::Global;
use venti_store::{Arena, ArenaError};

/// Fills a block with what an arena holds under a score and a kind, grown to its full length. Damaged(1) where it has no such block, or
/// one that doesn't hash to its score. Where it is refused the block stays as it was.
pub fn fetch_block<A: Disk>(
    alloc: Global,
    arena: &mut Arena<A>,
    score: &Score,
    kind: u8,
    into: &mut [u8],
) -> Result<(), BlockError>
    requires length { length into.old ≡ 8192 }
    ensures found { OnOk result (Fetched (lines_of arena.old.shelf) score.now.0 kind into.new) }
    ensures refused { IfErr result (FetchRefuses (lines_of arena.old.shelf) score.now.0 kind) }
    ensures nothing { OnErr result (into.new ≡ into.old) }
    ensures held { (stored : List (List ℕ)) (synced : ℕ) → Keeps arena.old.shelf stored synced (A.state arena.old.device)
        → MatchResult result (λ _. FetchedHeld (lines_of arena.old.shelf) stored score.now.0 kind into.new) (FetchLacks (lines_of arena.old.shelf) stored score.now.0 kind) }
    ensures shelf { arena.new.shelf ≡ arena.old.shelf }
    ensures kept { A.state arena.new.device ≡ A.state arena.old.device }
    ensures later { A.faults arena.old.device ≤ A.faults arena.new.device }
    ensures cause { IfErr result (Caused ⊥ (λ b. b ≡ 1) ⊥ (Rose (A.faults arena.old.device) (A.faults arena.new.device))) }
{
    let mut bytes = Vec::new(alloc);
    match arena.get(score, kind, &mut bytes) {
        Ok(()) => {
            grow(kind, &bytes, into);
            Ok(())
        }
        Err(ArenaError::Absent) => Err(BlockError::Damaged(1)),
        Err(ArenaError::Damaged(_)) => Err(BlockError::Damaged(1)),
        Err(ArenaError::ArenaRead) => Err(BlockError::Arena(DiskFault::Read)),
        Err(_) => Err(BlockError::Memory),
    }
}
