//! An arena, and the calls that settle it.
ghost use Rattle.std.specs.Prelude.{◌≡◌};

use crate::error::ArenaOpen;
use crate::open::read_shelf;
use crate::shelf::Shelf;
use crate::writes::{settle, write_head};
use fo_disk::{Disk, DiskFault};
use fo_image::arena_places;
use std::alloc::Global;

/// An arena on a device: blocks of at most 8192 bytes, each of which is found by its score and its kind. A block that was put
/// waits in memory until there are so many that they are settled together, or until a sync.
#[derive(Drop)]
pub struct Arena<A: Disk> {
    pub(crate) alloc: Global,
    pub(crate) device: A,
    pub(crate) shelf: Shelf,
    ghost size: { A.size device ≡ shelf.blocks },
}

impl<A: Disk> Arena<A> {
    ghost use Rattle.std.specs.Prelude.{IfOk, ◌/◌, ◌+◌, ◌≤◌, ℕ, List, [], length, MatchResult, OnOk, IfErr};
    ghost use Rattle.fo_base.specs.Cause.{HasCause};
    ghost use Rattle.fo_disk.specs.Disk.{Block, Since};
    ghost use Rattle.fo_sound.specs.Device.{Shows};
    ghost use Rattle.fo_image.specs.Place.{arena_places};
    ghost use Rattle.venti_store.specs.Held.{Recovers};
    ghost use Rattle.venti_store.specs.Kept.{IsLater};
    ghost use Rattle.venti_store.specs.Arena.{lines_of, recent_of, Keeps, Settled, settle_calls};
    ghost use Rattle.venti_store.specs.Opening.{Opens, OpenRefuses, OpenBlames};

    /// Opens the arena of a device. A refusal hands the device back.
    pub fn open(alloc: Global, device: A) -> Result<Arena<A>, ArenaOpen<A>>
        // Of a quiet device that tells what it holds, just what is held. `NotArena` comes exactly where it is none.
        ensures answer { (vault : List Block) → Shows (A.state device).holds vault
            → MatchResult result (λ a. Opens vault a.shelf (A.state a.device)) (λ e. OpenRefuses vault e.why) }

        // Its blocks are counted, and block 0 and each block of the index with a used line are read, once each. None is written.
        ensures reads { MatchResult result (λ a. A.calls a.device ≤ A.calls device + 2 + (length (lines_of a.shelf) + 340) / 341)
            (λ e. A.calls e.device ≤ A.calls device + 2 + (arena_places (A.size e.device) + 340) / 341) }
        ensures kept { MatchResult result (λ a. A.state a.device ≡ A.state device)
            (λ e. A.state e.device ≡ A.state device) }
        ensures later { MatchResult result (λ a. A.faults device ≤ A.faults a.device) (λ e. A.faults device ≤ A.faults e.device) }
        ensures cause { IfErr result (λ e. OpenBlames (A.faults device) (A.faults e.device) e.why) }
    {
        let mut device = device;
        match read_shelf(alloc, &mut device) {
            Ok(shelf) => Ok(Arena {
                alloc,
                device,
                shelf,
            }),
            Err(why) => Err(ArenaOpen { why, device }),
        }
    }

    /// How many places are used.
    pub fn used(&self) -> u32
        ensures { result ≡ length (lines_of self.now.shelf) }
    {
        self.shelf.index.lines.len() as u32
    }

    /// How many places the arena has.
    pub fn places(&self) -> u32
        ensures { result ≡ arena_places self.now.shelf.blocks }
    {
        arena_places(self.shelf.blocks)
    }

    /// The device, with what was settled on it. What was put since the last sync may be lost.
    pub fn close(self) -> A
        ensures { result ≡ self.device }
    {
        self.device
    }

    /// Settles the blocks that wait, without the head.
    pub(crate) fn settle(&mut self) -> Result<(), DiskFault>
        ensures keeps { (stored : List (List ℕ)) (synced : ℕ) → Keeps self.old.shelf stored synced (A.state self.old.device) → Keeps self.new.shelf stored synced (A.state self.new.device) }
        ensures moments { (stored : List (List ℕ)) (synced : ℕ) → Keeps self.old.shelf stored synced (A.state self.old.device)
            → Since (A.state self.old.device).moments (A.state self.new.device).moments (Recovers synced (lines_of self.old.shelf) stored) }
        ensures blocks { self.new.shelf.blocks ≡ self.old.shelf.blocks }
        ensures index { self.new.shelf.index ≡ self.old.shelf.index }
        ensures recent { self.new.shelf.recent ≡ self.old.shelf.recent }
        ensures none { OnOk result (self.new.shelf.pending.items ≡ []) }
        ensures calls { A.calls self.new.device ≤ A.calls self.old.device + settle_calls self.old.shelf }
        ensures cause { HasCause (A.faults self.old.device) (A.faults self.new.device) result }
        ensures fault { IfErr result IsLater }
    {
        let shelf = &self.shelf;
        let lines = &shelf.index.lines;
        let first = lines.len() - shelf.pending.len();
        settle(&mut self.device, first as u32, lines, &shelf.pending)?;
        self.shelf.pending.clear();
        Ok(())
    }

    /// Settles all blocks that were put. Where it fails, they still wait, and are written again by the next sync.
    ///
    /// The blocks and their lines are written and settled first, and then the head that says that they are used. So at each
    /// moment the device is an arena that holds what the last sync held.
    pub fn sync(&mut self) -> Result<(), DiskFault>
        // What is held stays, whatever is answered. Where it is Ok, the device is quiet and holds just that.
        ensures lines { lines_of self.new.shelf ≡ lines_of self.old.shelf }
        ensures recent { recent_of self.new.shelf ≡ recent_of self.old.shelf }
        ensures keeps { (stored : List (List ℕ)) (synced : ℕ) → Keeps self.old.shelf stored synced (A.state self.old.device)
            → MatchResult result (λ _. Keeps self.new.shelf stored (length stored) (A.state self.new.device) × Settled (lines_of self.new.shelf) stored (A.state self.new.device).holds)
            (λ _. Keeps self.new.shelf stored synced (A.state self.new.device)) }

        // Each image of each moment is an arena in which at least what was synced is held.
        ensures moments { (stored : List (List ℕ)) (synced : ℕ) → Keeps self.old.shelf stored synced (A.state self.old.device)
            → Since (A.state self.old.device).moments (A.state self.new.device).moments (Recovers synced (lines_of self.old.shelf) stored) }

        // Beside what settles the blocks that wait, the head is written and settled.
        ensures calls { A.calls self.new.device ≤ A.calls self.old.device + settle_calls self.old.shelf + 2 }

        ensures blocks { self.new.shelf.blocks ≡ self.old.shelf.blocks }
        ensures cause { HasCause (A.faults self.old.device) (A.faults self.new.device) result }
        ensures fault { IfErr result IsLater }
    {
        self.settle()?;
        let used = self.used();
        write_head(&mut self.device, self.shelf.blocks, used)
    }
}
