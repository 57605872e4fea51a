//! What an open arena has in memory.
ghost use Rattle.std.specs.Prelude.{◌≤◌, ◌^◌, length};
ghost use Rattle.fo_image.specs.Place.{arena_places};

use crate::index::{Index, is_empty};
use crate::recent::Recent;
use crate::waiting::Waiting;
use fo_base::Memory;
use fo_image::{ArenaLine, Score};
use std::alloc::Global;

/// The number of blocks of the device, the index, the blocks of the last places, which are not settled on the device yet, and those
/// that were put last.
#[derive(Drop)]
pub(crate) struct Shelf {
    pub(crate) blocks: u32,
    pub(crate) index: Index,
    pub(crate) pending: Vec<Waiting>,
    pub(crate) recent: Recent,
    ghost least: { 16 ≤ blocks },
    ghost most: { blocks ≤ 2 ^ 20 },
    ghost places: { length index.lines.items ≤ arena_places blocks },
    ghost few: { length pending.items ≤ length index.lines.items },
}

impl Shelf {
    ghost use Rattle.std.specs.Prelude.{◌≡◌, ◌<◌, ◌++◌, ◌∷◌, [], ℕ, List, OnOk, OnErr};
    ghost use Rattle.fo_disk.specs.Disk.{DiskState};
    ghost use Rattle.fo_image.specs.Format.{ArenaLineHolds};
    ghost use Rattle.venti_store.specs.Held.{HasName, IsNamed, IsHeld};
    ghost use Rattle.venti_store.specs.Arena.{lines_of, Keeps, IsLatest, IsAtHand};
    ghost use Rattle.venti_store.specs.Kept.{waits};

    /// Adds a block, of a score and a kind that no place has, at the next place. Where there is no memory, nothing changes.
    pub(crate) fn add(&mut self, alloc: Global, line: ArenaLine, bytes: &[u8]) -> Result<(), Memory>
        requires room { length self.old.index.lines.items < arena_places self.old.blocks }
        requires fits { length bytes.now ≤ 8192 }
        requires spelled { ArenaLineHolds line }
        requires fresh { (place : ℕ) → ¬ HasName self.old.index.lines.items line.score.0 line.kind place }
        ensures line { OnOk result (self.new.index.lines.items ≡ self.old.index.lines.items ++ line ∷ []) }
        ensures bytes { OnOk result (waits self.new.pending.items ≡ waits self.old.pending.items ++ bytes.now ∷ []) }
        ensures same_lines { OnErr result (self.new.index.lines.items ≡ self.old.index.lines.items) }
        ensures same_bytes { OnErr result (waits self.new.pending.items ≡ waits self.old.pending.items) }
        ensures blocks { self.new.blocks ≡ self.old.blocks }
        ensures recent { self.new.recent ≡ self.old.recent }
    {
        let waiting = Waiting::copy_of(alloc, bytes)?;
        self.pending.reserve(1)?;
        self.index.add(line)?;
        self.pending.push_reserved(waiting);
        Ok(())
    }

    /// Notes that a block was put, which is held.
    pub(crate) fn remember(&mut self, score: &Score, kind: u8, bytes: Vec<u8>)
        requires named { IsNamed (lines_of self.old) score.now.0 kind }
        requires fits { length bytes.items ≤ 8192 }
        ensures latest { IsLatest score.now.0 kind self.old self.new }
        ensures at_hand { IsAtHand self.new score.now.0 kind }
        ensures keeps { (stored : List (List ℕ)) (synced : ℕ) (s : DiskState) → IsHeld (lines_of self.old) stored score.now.0 kind bytes.items → Keeps self.old stored synced s → Keeps self.new stored synced s }
        ensures index { self.new.index ≡ self.old.index }
        ensures pending { self.new.pending ≡ self.old.pending }
        ensures blocks { self.new.blocks ≡ self.old.blocks }
    {
        if is_empty(score) {
            return;
        }
        if let Some(place) = self.index.place(score, kind) {
            self.recent.add(place, bytes);
        }
    }
}
