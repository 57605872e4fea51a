//! What is put into a leaf waits for entries.
ghost use Rattle.std.specs.Prelude.{◌≡◌, ◌↔◌, ◌+◌, ◌-◌, ◌*◌, ◌<◌, ◌≤◌, ℕ, List, length, IsTrue};
ghost use Rattle.std.specs.Vec.{vec_len, vec_capacity};
ghost use Rattle.fo_disk.specs.Disk.{Content as Holds};
ghost use Rattle.fo_image.specs.declared.types.Kind.TheVariants.{Dir};
ghost use Rattle.fo_crash.specs.Images.{SameImage};
ghost use Rattle.fo_ports.specs.Blocks.{ReadsSlots};
ghost use Rattle.fo_ports.specs.State.{AddsNoWait, Calm, WaitsForPairs, none};
ghost use Rattle.fo_slots.specs.Read.{read};
ghost use Rattle.fo_waits.specs.declared.listed.Wait.{Wait as Awaited};
ghost use Rattle.fo_waits.specs.Listed.{Clears, is_active};
ghost use Rattle.fo_waits.specs.Waited.{ListsPairs};
ghost use Rattle.fo_mind.specs.MindParts.{parts};
ghost use Rattle.fo_mind.specs.Parts.{CacheKeeps, IsPinned, label_at, memory, state_of};

use crate::mind::Mind;
use crate::news::copied;
use fo_crash::Slot;
use fo_image::Kind;
use fo_slots::slot_of;
use fo_waits::wait_pairs;

impl Mind {
    /// From now on what is put into a block waits for each pair of entries of a pinned leaf whose first is in use and waits for no
    /// clearing.
    pub fn wait_for(&mut self, at: u32, on: u32)
        requires pinned { IsPinned self.old.buffers on }
        requires entries { (label_at self.old.labels on).kind ≡ Dir 0 }
        requires room { 0 < self.old.room }
        ensures waits { (disk : Holds) (faults : ℕ) → WaitsForPairs at on (state_of (parts self.old disk faults)) (state_of (parts self.new disk faults)) }
        ensures no_wait { (disk : Holds) (faults : ℕ) → AddsNoWait (λ a. a ≡ at) (state_of (parts self.old disk faults)) (state_of (parts self.new disk faults)) }
        ensures now { (disk : Holds) (faults : ℕ) → SameImage (memory (parts self.new disk faults)) (memory (parts self.old disk faults)) }
        ensures calm { (disk : Holds) (faults : ℕ) → Calm none 1 (state_of (parts self.old disk faults)) (state_of (parts self.new disk faults)) }
        ensures keeps { (disk : Holds) (faults : ℕ) → CacheKeeps (parts self.old disk faults) (parts self.new disk faults) }
        ensures rest { (disk : Holds) (faults : ℕ) → parts self.new disk faults ≡ record (parts self.old disk faults) { waits = self.new.waits.items; room = self.old.room - 1 } }
    {
        let bytes = copied(&self.buffers, on);
        wait_pairs(&mut self.waits, &self.clears, &bytes, at, on);
        self.room -= 1;
    }
}
