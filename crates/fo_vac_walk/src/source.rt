//! Sources, and the ways to their leaves.
ghost use Rattle.std.specs.Prelude.{◌≡◌, ◌+◌, ◌<◌, ◌≤◌, false, length, MatchResult};
ghost use Rattle.fo_crash.specs.Images.{Link};
ghost use Rattle.fo_image.specs.Format.{kind_code};
ghost use Rattle.fo_vac_open.specs.Held.{pointer_to};
ghost use Rattle.fo_vacput.specs.Vac.{VacEntryHolds};
ghost use Rattle.fo_vac_walk.specs.Walk.{Holding, IsTold, kind_at, top_of, no_entry, IsSourceOf, Found, Spoils, HasWalkCauses};

use crate::block::{Spot, get_block, is_nil, pointer_in};
use crate::error::WalkError;
use fo_disk::Disk;
use fo_image::Score;
use fo_vacput::{EMPTY, VacEntry};
use std::alloc::Global;
use venti_store::Arena;

/// A source of bytes, entries or records in an archive.
#[derive(Clone, Copy)]
pub struct Source {
    pub(crate) entry: VacEntry,
    pub(crate) holder: u32,
    ghost shallow: { entry.depth < 64 },
}

/// The number of the kind of a block of a source at this level.
pub(crate) fn kind_number(dir: bool, level: u8) -> u8
    requires { level < 64 }
    ensures { result ≡ kind_code (kind_at dir level) }
{
    if dir { 8 + level } else { level }
}

impl Source {
    /// The source of an entry, which this block of the arena's device names.
    pub fn new(entry: VacEntry, holder: u32) -> Source
        requires { VacEntryHolds entry }
        ensures entry { result.entry ≡ entry }
        ensures holder { result.holder ≡ holder }
    {
        Source { entry, holder }
    }

    /// The source of no bytes, where no entry stands.
    pub fn none(holder: u32) -> Source
        ensures { result.entry ≡ no_entry }
    {
        let entry = VacEntry {
            generation: 0,
            active: false,
            dir: false,
            depth: 0,
            size: 0,
            score: EMPTY,
        };
        Source { entry, holder }
    }

    /// How many bytes it has.
    pub fn size(&self) -> u64
        ensures { result ≡ self.now.entry.size }
    {
        self.entry.size
    }

    /// Where its first block is.
    fn top(&self) -> Spot
        ensures score { pointer_to result.score.0 ≡ top_of self.now.entry }
        ensures holder { result.holder ≡ self.now.holder }
    {
        let score = if self.entry.active {
            self.entry.score
        } else {
            EMPTY
        };
        Spot {
            score,
            holder: self.holder,
        }
    }

    /// Where block `k` is, of those so many levels below the first one.
    pub(crate) fn pointer_at<A: Disk>(
        &self,
        alloc: Global,
        arena: &mut Arena<A>,
        down: u8,
        k: u64,
    ) -> Result<Spot, WalkError>
        requires { down ≤ self.now.entry.depth }
        ensures held { (h : Holding) (w : Link) → IsTold h arena.old.shelf (A.state arena.old.device) → IsSourceOf w self.now.entry
            → MatchResult result (Found h w self.now.holder self.now.entry down k) (Spoils h w self.now.holder) }
        ensures shelf { arena.new.shelf ≡ arena.old.shelf }
        ensures kept { A.state arena.new.device ≡ A.state arena.old.device }
        ensures cause { HasWalkCauses (A.faults arena.old.device) (A.faults arena.new.device) result }
    {
        if down == 0 {
            return Ok(self.top());
        }
        let above = self.pointer_at(alloc, arena, down - 1, k / 409)?;
        if is_nil(above.score) {
            return Ok(above);
        }
        let kind = kind_number(self.entry.dir, self.entry.depth - (down - 1));
        let got = get_block(alloc, arena, above, kind)?;
        let spot = pointer_in(&got, kind, (k % 409) as usize)?;
        Ok(spot)
    }
}
