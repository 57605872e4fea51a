//! Directories.
ghost use Rattle.std.specs.Prelude.{◌≡◌, ◌-◌, ◌*◌, ◌+◌, ◌<◌, IfOk, MatchResult};
ghost use Rattle.fo_crash.specs.Images.{Link};
ghost use Rattle.fo_vac_open.specs.Tree.{link_to};
ghost use Rattle.fo_vacput.specs.Top.{VacTopHolds};
ghost use Rattle.fo_vac_walk.specs.Walk.{Holding, IsTold, IsSourceOf, entry_at, Leading, Spoils, HasWalkCauses};
ghost use Rattle.fo_vac_dir.specs.Choice.{test_of, OneHolds};
ghost use Rattle.fo_vac_dir.specs.Dir.{Spoiled, Finds};

use crate::choice::Wanted;
use crate::leaf::records_of;
use fo_disk::{BLOCK, Disk};
use fo_image::Record;
use fo_vac_walk::{Source, WalkError};
use fo_vacput::VacTop;
use std::alloc::Global;
use venti_store::Arena;

/// How many bytes a leaf has.
const LEAF: u64 = BLOCK as u64;

/// A directory of an archive: the source of its entries, the source of its records, and how many levels of directories are read from it
/// on. The root directory has 65; below the last one no names are read.
#[derive(Clone, Copy)]
pub struct Folder {
    pub entries: Source,
    pub meta: Source,
    pub levels: u32,
}

impl Folder {
    /// The root directory of an archive, whose top block stands in this block of the arena's device.
    pub fn root(top: &VacTop, holder: u32) -> Folder
        requires { VacTopHolds top.now }
        ensures entries { IsSourceOf (link_to top.now.entries) result.entries.entry }
        ensures meta { IsSourceOf (link_to top.now.meta) result.meta.entry }
        ensures holder { (result.entries.holder ≡ holder) × (result.meta.holder ≡ holder) }
        ensures levels { result.levels ≡ 65 }
    {
        Folder {
            entries: Source::new(top.entries, holder),
            meta: Source::new(top.meta, holder),
            levels: 65,
        }
    }

    /// The record of the file that is wanted; None where the directory has none.
    pub fn record<A: Disk>(
        &self,
        alloc: Global,
        arena: &mut Arena<A>,
        wanted: &Wanted,
    ) -> Result<Option<Record>, WalkError>
        ensures held { (h : Holding) (entries meta : Link) → IsTold h arena.old.shelf (A.state arena.old.device) → IsSourceOf meta self.now.meta.entry
            → MatchResult result (Finds h (test_of wanted.now) self.now.levels entries meta) (Spoiled h meta self.now.meta.holder) }
        ensures holds { IfOk result OneHolds }
        ensures shelf { arena.new.shelf ≡ arena.old.shelf }
        ensures kept { A.state arena.new.device ≡ A.state arena.old.device }
        ensures cause { HasWalkCauses (A.faults arena.old.device) (A.faults arena.new.device) result }
    {
        let mut best = None;
        if self.levels == 0 {
            return Ok(best);
        }
        let count = self.meta.size().div_ceil(LEAF);
        'leaves: for k in 0..count {
            let records = records_of(alloc, arena, &self.meta, k)?;
            best = wanted.choose_all(best, records);
        }
        Ok(best)
    }

    /// The source of the bytes of a file of the directory.
    pub fn file<A: Disk>(
        &self,
        alloc: Global,
        arena: &mut Arena<A>,
        named: &Record,
    ) -> Result<Source, WalkError>
        ensures held { (h : Holding) (w : Link) → IsTold h arena.old.shelf (A.state arena.old.device) → IsSourceOf w self.now.entries.entry
            → MatchResult result (λ source. Leading h w self.now.entries.holder (entry_at h w (2 * named.now.slot)) source.entry source.holder) (Spoils h w self.now.entries.holder) }
        ensures shelf { arena.new.shelf ≡ arena.old.shelf }
        ensures kept { A.state arena.new.device ≡ A.state arena.old.device }
        ensures cause { HasWalkCauses (A.faults arena.old.device) (A.faults arena.new.device) result }
    {
        let slot = u64::from(named.slot);
        self.entries.entry(alloc, arena, 2 * slot)
    }

    /// A directory of the directory.
    pub fn folder<A: Disk>(
        &self,
        alloc: Global,
        arena: &mut Arena<A>,
        named: &Record,
    ) -> Result<Folder, WalkError>
        ensures held { (h : Holding) (w : Link) → IsTold h arena.old.shelf (A.state arena.old.device) → IsSourceOf w self.now.entries.entry
            → MatchResult result (λ f. Leading h w self.now.entries.holder (entry_at h w (2 * named.now.slot)) f.entries.entry f.entries.holder × Leading h w self.now.entries.holder (entry_at h w (2 * named.now.slot + 1)) f.meta.entry f.meta.holder) (Spoils h w self.now.entries.holder) }
        ensures levels { IfOk result (λ f. f.levels ≡ self.now.levels - 1) }
        ensures shelf { arena.new.shelf ≡ arena.old.shelf }
        ensures kept { A.state arena.new.device ≡ A.state arena.old.device }
        ensures cause { HasWalkCauses (A.faults arena.old.device) (A.faults arena.new.device) result }
    {
        let slot = u64::from(named.slot);
        let entries = self.entries.entry(alloc, arena, 2 * slot)?;
        let meta = self.entries.entry(alloc, arena, 2 * slot + 1)?;
        let levels = self.levels.saturating_sub(1);
        Ok(Folder {
            entries,
            meta,
            levels,
        })
    }
}
