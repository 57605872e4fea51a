//! The look at the root and the top block of an archive.
ghost use Rattle.std.specs.Prelude.{◌≡◌, ℕ, ◌≤◌, List, length, IfOk, IfErr, MatchResult};
ghost use Rattle.venti_store.specs.Arena.{lines_of, Keeps};
ghost use Rattle.fo_vacput.specs.declared.types.VacRoot.{VacRoot};
ghost use Rattle.fo_vacput.specs.declared.types.VacTop.{VacTop};
ghost use Rattle.fo_vac_open.specs.declared.types.Archived.{Archived};
ghost use Rattle.fo_vac_open.specs.Open.{RootHashes, TopHashes, ArchiveHashes, RootRefused, TopRefused, ArchiveRefused, HasRoot, HasTop, HasArchive, RootLacks, TopLacks, ArchiveLacks, SpellsTop, LacksTop, IsLost, HasVacCauses};

use crate::types::{Archived, VacError};
use fo_disk::{BLOCK, Disk};
use fo_image::Score;
use fo_vacput::{VacRoot, VacTop, VacTopError, grow, read_vac_root, read_vac_top};
use std::alloc::Global;
use venti_store::{Arena, ArenaError, ROOT, TOP};

/// The root that is held under this score.
fn read_root<A: Disk>(
    alloc: Global,
    arena: &mut Arena<A>,
    score: &Score,
) -> Result<VacRoot, VacError>
    ensures hashes { IfOk result (RootHashes (lines_of arena.old.shelf) score.now.0) }
    ensures refused { IfErr result (RootRefused (lines_of arena.old.shelf) score.now.0) }
    ensures held { (stored : List (List ℕ)) (synced : ℕ) → Keeps arena.old.shelf stored synced (A.state arena.old.device)
        → MatchResult result (HasRoot (lines_of arena.old.shelf) stored score.now.0) (RootLacks (lines_of arena.old.shelf) stored score.now.0) }
    ensures only { (stored : List (List ℕ)) (synced : ℕ) (root : VacRoot) → Keeps arena.old.shelf stored synced (A.state arena.old.device)
        → HasRoot (lines_of arena.old.shelf) stored score.now.0 root → MatchResult result (λ read. read ≡ root) IsLost }
    ensures shelf { arena.new.shelf ≡ arena.old.shelf }
    ensures kept { A.state arena.new.device ≡ A.state arena.old.device }
    ensures cause { HasVacCauses (A.faults arena.old.device) (A.faults arena.new.device) result }
{
    let mut bytes = Vec::new(alloc);
    if let Err(why) = arena.get(score, ROOT, &mut bytes) {
        return Err(VacError::Arena(why));
    }
    match read_vac_root(&bytes) {
        Ok(root) => Ok(root),
        Err(_) => Err(VacError::BadVac),
    }
}

/// The top block of which these bytes are stored.
fn top_of(alloc: Global, bytes: &[u8]) -> Result<VacTop, VacError>
    requires { length bytes.now ≤ 8192 }
    ensures found { MatchResult result (SpellsTop bytes.now) (LacksTop bytes.now) }
    ensures only { (top : VacTop) → SpellsTop bytes.now top → MatchResult result (λ read. read ≡ top) IsLost }
{
    let mut block = [0; BLOCK];
    grow(TOP, bytes, &mut block);
    match read_vac_top(alloc, &block) {
        Ok(top) => Ok(top),
        Err(VacTopError::Bad) => Err(VacError::BadVac),
        Err(VacTopError::Memory) => Err(VacError::Arena(ArenaError::Memory)),
    }
}

/// The top block that is held under this score.
fn read_top<A: Disk>(alloc: Global, arena: &mut Arena<A>, score: &Score) -> Result<VacTop, VacError>
    ensures hashes { IfOk result (TopHashes (lines_of arena.old.shelf) score.now.0) }
    ensures refused { IfErr result (TopRefused (lines_of arena.old.shelf) score.now.0) }
    ensures held { (stored : List (List ℕ)) (synced : ℕ) → Keeps arena.old.shelf stored synced (A.state arena.old.device)
        → MatchResult result (HasTop (lines_of arena.old.shelf) stored score.now.0) (TopLacks (lines_of arena.old.shelf) stored score.now.0) }
    ensures only { (stored : List (List ℕ)) (synced : ℕ) (top : VacTop) → Keeps arena.old.shelf stored synced (A.state arena.old.device)
        → HasTop (lines_of arena.old.shelf) stored score.now.0 top → MatchResult result (λ read. read ≡ top) IsLost }
    ensures shelf { arena.new.shelf ≡ arena.old.shelf }
    ensures kept { A.state arena.new.device ≡ A.state arena.old.device }
    ensures cause { HasVacCauses (A.faults arena.old.device) (A.faults arena.new.device) result }
{
    let mut bytes = Vec::new(alloc);
    match arena.get(score, TOP, &mut bytes) {
        Ok(()) => top_of(alloc, &bytes),
        Err(ArenaError::Absent) => Err(VacError::BadVac),
        Err(why) => Err(VacError::Arena(why)),
    }
}

/// The archive whose root has this score. Nothing changes.
pub fn open_archive<A: Disk>(
    alloc: Global,
    arena: &mut Arena<A>,
    score: &Score,
) -> Result<Archived, VacError>
    // Over any device: blocks that hash to their scores. `Absent` comes exactly where no root is held.
    ensures hashes { IfOk result (ArchiveHashes (lines_of arena.old.shelf) score.now.0) }
    ensures refused { IfErr result (ArchiveRefused (lines_of arena.old.shelf) score.now.0) }

    // Over a device that tells what it holds: just what is held. `BadVac` comes exactly where that is no archive.
    ensures held { (stored : List (List ℕ)) (synced : ℕ) → Keeps arena.old.shelf stored synced (A.state arena.old.device)
        → MatchResult result (HasArchive (lines_of arena.old.shelf) stored score.now.0) (ArchiveLacks (lines_of arena.old.shelf) stored score.now.0) }
    ensures only { (stored : List (List ℕ)) (synced : ℕ) (a : Archived) → Keeps arena.old.shelf stored synced (A.state arena.old.device)
        → HasArchive (lines_of arena.old.shelf) stored score.now.0 a → MatchResult result (λ found. found ≡ a) IsLost }

    ensures shelf { arena.new.shelf ≡ arena.old.shelf }
    ensures kept { A.state arena.new.device ≡ A.state arena.old.device }
    ensures cause { HasVacCauses (A.faults arena.old.device) (A.faults arena.new.device) result }
{
    let root = read_root(alloc, arena, score)?;
    let top = read_top(alloc, arena, &root.top)?;
    Ok(Archived { root, top })
}
