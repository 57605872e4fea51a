//! What is asked of memory.
ghost use Rattle.std.specs.Prelude.{◌≡◌, ◌<◌, ◌↔◌, ◌&&◌, ◌==◌, ℕ, true, length, IsTrue};
ghost use Rattle.std.specs.List.{list_any};
ghost use Rattle.fo_disk.specs.Disk.{Content as Holds};
ghost use Rattle.fo_ports.specs.Blocks.{slot_count};
ghost use Rattle.fo_facts.specs.Known.{fact_at};
ghost use Rattle.fo_bring.specs.Blocks.{IsData};
ghost use Rattle.fo_waits.specs.Listed.{Clears};
ghost use Rattle.fo_mind.specs.Parts.{IsHeld, IsPinned, label_at, memory};
ghost use Rattle.fo_mind.specs.MindParts.{parts};

use crate::mind::Mind;
use fo_bring::is_data;
use fo_crash::Slot;
use fo_image::Pointer;
use fo_slots::slot_of;
use fo_waits::is_listed;

impl Mind {
    /// A slot of a pinned block.
    pub fn slot(&self, at: u32, i: u32) -> Slot
        requires pinned { IsPinned self.now.buffers at }
        requires slots { i < slot_count (label_at self.now.labels at).kind }
        ensures { (disk : Holds) (faults : ℕ) → result ≡ (memory (parts self.now disk faults) at).slot i }
    {
        self.slot_held(at, i)
    }

    // A slot of a held block.
    pub(crate) fn slot_held(&self, at: u32, i: u32) -> Slot
        requires held { IsHeld self.now.buffers at }
        requires slots { i < slot_count (label_at self.now.labels at).kind }
        ensures { (disk : Holds) (faults : ℕ) → result ≡ (memory (parts self.now disk faults) at).slot i }
    {
        match self.buffers.bytes(at) {
            Some(bytes) => slot_of(self.label(at).kind, bytes, i as usize),
            None => Slot::Pointer(Pointer::Nil),
        }
    }

    /// Whether a slot waits to be cleared.
    pub fn is_clearing(&self, at: u32, i: u32) -> bool
        ensures { IsTrue result ↔ Clears self.now.clears.items at i }
    {
        is_listed(&self.clears, at, i)
    }

    /// Whether a block was there when all was settled.
    pub fn is_sealed(&self, at: u32) -> bool
        ensures { IsTrue result ↔ ((fact_at self.now.facts at).sealed ≡ true) }
    {
        self.facts.get(at).sealed
    }

    /// The epoch of the active tree.
    pub fn high(&self) -> u32
        ensures { result ≡ self.now.one.high }
    {
        self.one.high
    }

    /// The root of the active tree.
    pub fn root(&self) -> u32
        ensures { result ≡ self.now.one.active }
    {
        self.one.active
    }

    /// Whether this is the address of a data block.
    pub fn is_block(&self, at: u32) -> bool
        ensures { IsTrue result ↔ IsData self.now.first self.now.count at }
    {
        is_data(self.first, self.count, at)
    }

    /// How many addresses there are.
    pub fn count(&self) -> u32
        ensures { result ≡ self.now.count }
    {
        self.count
    }

    /// How many blocks may be made.
    pub fn spare(&self) -> u32
        ensures { result ≡ self.now.spare }
    {
        self.spare
    }

    /// How many more blocks may be pinned.
    pub fn pins(&self) -> u32
        ensures { result ≡ self.now.pins }
    {
        self.pins
    }

    /// How many removals and waits are left.
    pub fn room(&self) -> u32
        ensures { result ≡ self.now.room }
    {
        self.room
    }

    /// How many removals are queued.
    pub fn queued(&self) -> u32
        ensures { result ≡ length self.now.queue.removals }
    {
        self.queue.len()
    }
}
