//! What is known of an archive that is open.
ghost use Rattle.std.specs.Prelude.{◌≡◌, ◌<◌, ◌^◌};
ghost use Rattle.fo_image.specs.Record.{RootRecordHolds};
ghost use Rattle.fo_vacput.specs.Top.{VacTopHolds};
ghost use Rattle.fo_vacput.specs.Vac.{VacRootHolds};
ghost use Rattle.fo_vac_open.specs.Tree.{link_to};
ghost use Rattle.fo_vac_walk.specs.Walk.{IsSourceOf, StandsIn};
ghost use Rattle.venti_store.specs.Arena.{lines_of};

use fo_disk::Disk;
use fo_image::Score;
use fo_vac_dir::Folder;
use fo_vac_open::{Archived, VacError, open_archive};
use std::alloc::Global;
use venti_store::{Arena, TOP};

/// An archive that is open: its score, its root and its top block, and its root directory.
#[derive(Drop)]
pub struct Opened {
    pub(crate) score: Score,
    pub(crate) found: Archived,
    pub(crate) root: Folder,
    ghost epoch_fits: { found.root.epoch < 2 ^ 31 },
    ghost time_fits: { found.root.time < 2 ^ 32 },
    ghost own: { RootRecordHolds found.top.own },
    ghost entries: { IsSourceOf (link_to found.top.entries) root.entries.entry },
    ghost meta: { IsSourceOf (link_to found.top.meta) root.meta.entry },
    ghost levels: { root.levels ≡ 65 },
}

/// What is known of an archive that was found, whose top block stands in this block of the arena's device.
fn opened_as(score: Score, found: Archived, holder: u32) -> Opened
    requires root { VacRootHolds found.root }
    requires top { VacTopHolds found.top }
    ensures score { result.score ≡ score }
    ensures found { result.found ≡ found }
    ensures block { (result.root.entries.holder ≡ holder) × (result.root.meta.holder ≡ holder) }
{
    let dir = Folder::root(&found.top, holder);
    Opened {
        score,
        found,
        root: dir,
    }
}

/// The block of the arena's device that has a top block; 0 where none has it.
fn block_of<A: Disk>(arena: &Arena<A>, top: &Score) -> u32
    ensures { StandsIn (lines_of arena.now.shelf) 0 top.now.0 17 result }
{
    match arena.block_of(top, TOP) {
        Some(at) => at,
        None => 0,
    }
}

impl Opened {
    ghost use Rattle.std.specs.Prelude.{◌≡◌, ℕ, List, IfErr, MatchResult, IfOk};
    ghost use Rattle.venti_store.specs.Arena.{Keeps};
    ghost use Rattle.fo_vac_open.specs.declared.types.Archived.{Archived};
    ghost use Rattle.fo_vac_open.specs.Open.{ArchiveHashes, ArchiveRefused, HasArchive, ArchiveLacks, IsLost, HasVacCauses};

    /// Opens the archive whose root has this score. Nothing changes.
    pub fn open<A: Disk>(
        alloc: Global,
        arena: &mut Arena<A>,
        score: &Score,
    ) -> Result<Opened, VacError>
        // Over any device: blocks that hash to their scores. `Absent` comes exactly where no root is held.
        ensures score { IfOk result (λ o. o.score ≡ score.now) }
        ensures hashes { IfOk result (λ o. ArchiveHashes (lines_of arena.old.shelf) score.now.0 o.found) }
        ensures refused { IfErr result (ArchiveRefused (lines_of arena.old.shelf) score.now.0) }

        // The arena's block that has the top block: it is named where what the top block names is broken.
        ensures block { IfOk result (λ o. StandsIn (lines_of arena.old.shelf) 0 o.found.root.top.0 17 o.root.entries.holder × StandsIn (lines_of arena.old.shelf) 0 o.found.root.top.0 17 o.root.meta.holder) }

        // Over a device that tells what it holds: just what is held. `BadVac` comes exactly where that is no archive.
        ensures held { (stored : List (List ℕ)) (synced : ℕ) → Keeps arena.old.shelf stored synced (A.state arena.old.device)
            → MatchResult result (λ o. HasArchive (lines_of arena.old.shelf) stored score.now.0 o.found) (ArchiveLacks (lines_of arena.old.shelf) stored score.now.0) }
        ensures only { (stored : List (List ℕ)) (synced : ℕ) (a : Archived) → Keeps arena.old.shelf stored synced (A.state arena.old.device)
            → HasArchive (lines_of arena.old.shelf) stored score.now.0 a → MatchResult result (λ o. o.found ≡ a) IsLost }

        ensures shelf { arena.new.shelf ≡ arena.old.shelf }
        ensures kept { A.state arena.new.device ≡ A.state arena.old.device }
        ensures cause { HasVacCauses (A.faults arena.old.device) (A.faults arena.new.device) result }
    {
        let found = open_archive(alloc, arena, score)?;
        let holder = block_of(arena, &found.root.top);
        let opened = opened_as(*score, found, holder);
        Ok(opened)
    }

    /// The epoch of the archive: its files serve the view of this one.
    pub fn epoch(&self) -> u32
        ensures { result ≡ self.now.found.root.epoch }
    {
        self.found.root.epoch
    }
}
