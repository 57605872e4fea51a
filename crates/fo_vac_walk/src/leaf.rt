//! Leaves of sources, and the entries in them.
ghost use Rattle.std.specs.Prelude.{◌≡◌, ◌*◌, ◌<◌, length, take, drop, MatchResult};
ghost use Rattle.fo_crash.specs.Images.{Link};
ghost use Rattle.fo_image.specs.Field.{zeros};
ghost use Rattle.fo_vac_open.specs.Held.{entry_in};
ghost use Rattle.fo_vacput.specs.declared.types.VacEntry.{VacEntry};
ghost use Rattle.fo_vacput.specs.Vac.{SpellsVacEntry};
ghost use Rattle.fo_vac_walk.specs.Walk.{Holding, IsTold, IsSourceOf, entry_at, FillsLeaf, Leading, Spoils, HasWalkCauses};
ghost use Rattle.fo_vac_walk.specs.declared.error.WalkError.TheVariants.{Damaged};

use crate::block::{get_block, is_nil};
use crate::error::WalkError;
use crate::source::{Source, kind_number};
use fo_disk::{BLOCK, Disk};
use fo_vacput::{grow, read_vac_entry};
use std::alloc::Global;
use venti_store::Arena;

impl Source {
    /// Fills the block with leaf `k`, and says which block of the arena's device has it; with zeros and None where it is nowhere. The
    /// block may have been changed where it is refused.
    pub fn leaf<A: Disk>(
        &self,
        alloc: Global,
        arena: &mut Arena<A>,
        k: u64,
        into: &mut [u8],
    ) -> Result<Option<u32>, WalkError>
        requires { length into.old ≡ 8192 }
        ensures held { (h : Holding) (w : Link) → IsTold h arena.old.shelf (A.state arena.old.device) → IsSourceOf w self.now.entry
            → MatchResult result (FillsLeaf h w self.now.holder self.now.entry k into.new) (Spoils h w self.now.holder) }
        ensures shelf { arena.new.shelf ≡ arena.old.shelf }
        ensures kept { A.state arena.new.device ≡ A.state arena.old.device }
        ensures cause { HasWalkCauses (A.faults arena.old.device) (A.faults arena.new.device) result }
    {
        let spot = self.pointer_at(alloc, arena, self.entry.depth, k)?;
        if is_nil(spot.score) {
            clear(into);
            return Ok(None);
        }
        let kind = kind_number(self.entry.dir, 0);
        let got = get_block(alloc, arena, spot, kind)?;
        grow(kind, &got.bytes, into);
        Ok(Some(got.at))
    }

    /// Entry `j` of a source of entries, as a source.
    pub fn entry<A: Disk>(
        &self,
        alloc: Global,
        arena: &mut Arena<A>,
        j: u64,
    ) -> Result<Source, WalkError>
        ensures held { (h : Holding) (w : Link) → IsTold h arena.old.shelf (A.state arena.old.device) → IsSourceOf w self.now.entry
            → MatchResult result (λ source. Leading h w self.now.holder (entry_at h w j) source.entry source.holder) (Spoils h w self.now.holder) }
        ensures shelf { arena.new.shelf ≡ arena.old.shelf }
        ensures kept { A.state arena.new.device ≡ A.state arena.old.device }
        ensures cause { HasWalkCauses (A.faults arena.old.device) (A.faults arena.new.device) result }
    {
        let mut block = [0; BLOCK];
        let found = self.leaf(alloc, arena, j / 204, &mut block)?;
        let Some(at) = found else {
            return Ok(Source::none(self.holder));
        };
        if !self.entry.dir {
            return Ok(Source::none(self.holder));
        }
        source_in(&block, at, (j % 204) as usize)
    }
}

/// Fills a block with zeros.
fn clear(block: &mut [u8])
    ensures { block.new ≡ zeros (length block.old) }
{
    block.fill(0);
}

/// Entry `i` of a leaf of entries, which this block of the arena's device has.
fn source_in(block: &[u8], at: u32, i: usize) -> Result<Source, WalkError>
    requires slot { i < 204 }
    requires length { length block.now ≡ 8192 }
    ensures { MatchResult result
        (λ source. (source.holder ≡ at) × (source.entry ≡ entry_in (take 40 (drop (40 * i) block.now))))
        (λ e. (e ≡ Damaged at) × ((entry : VacEntry) → ¬ SpellsVacEntry entry (take 40 (drop (40 * i) block.now)))) }
{
    match read_vac_entry(&block[40 * i..40 * i + 40]) {
        Ok(entry) => Ok(Source::new(entry, at)),
        Err(_) => Err(WalkError::Damaged(at)),
    }
}
