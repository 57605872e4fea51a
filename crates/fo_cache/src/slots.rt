//! Slots are put and cleared.
use crate::cache::Cache;
use fo_crash::Slot;
use fo_disk::Disk;

impl<D: Disk> Cache<D> {
    ghost use Rattle.std.specs.Prelude.{◌≡◌, ◌≢◌, ◌⊎◌, ◌<◌, ◌≤◌, ℕ, [], None, IfSome};
    ghost use Rattle.fo_image.specs.declared.types.Kind.TheVariants.{Dir};
    ghost use Rattle.fo_image.specs.declared.types.Pointer.TheVariants.{Local};
    ghost use Rattle.fo_crash.specs.Images.{SameImage, target};
    ghost use Rattle.fo_crash.specs.Names.{SameUse};
    ghost use Rattle.fo_crash.specs.Steps.{PutsSlot, Through, cleared};
    ghost use Rattle.fo_ports.specs.Blocks.{SlotFits, cost, slot_count};
    ghost use Rattle.fo_ports.specs.State.{AddsNoWait, AddsRemovals, Frame, Hangs, KeepsOrder, QueuesOne, none};
    ghost use Rattle.fo_mind.specs.of_waits.Listed.{Awaits, Clears};
    ghost use Rattle.fo_mind.specs.MindParts.{parts};
    ghost use Rattle.fo_mind.specs.Parts.{CacheKeeps, IsBlock, IsDirty, IsNewborn, IsPinned, label_at, memory, state_of};
    ghost use Rattle.fo_put.specs.Queued.{Queues};
    ghost use Rattle.fo_put.specs.Removed.{ClearsOrWaits};

    /// Puts a slot of a pinned block (`put_slot` of `fo_put`).
    pub fn put_slot(&mut self, at: u32, i: u32, slot: Slot)
        requires pinned { IsPinned (parts self.old.mind [] 0).held at }
        requires current { (label_at (parts self.old.mind [] 0).region at).epoch ≡ (parts self.old.mind [] 0).one.high }
        requires spelled { (i < slot_count (label_at (parts self.old.mind [] 0).region at).kind) × SlotFits (label_at (parts self.old.mind [] 0).region at).kind i slot }
        requires settled { Clears (parts self.old.mind [] 0).clears at i → ⊥ }
        requires same_use { (a : ℕ) → Awaits (parts self.old.mind [] 0).waits a at i → SameUse slot ((memory (parts self.old.mind (D.state self.old.main).holds (D.faults self.old.main)) at).slot i) }
        requires leads { (b : ℕ) → target slot ≡ Local b → IsBlock (parts self.old.mind [] 0) b × (b ≢ at) }
        requires room { cost ((memory (parts self.old.mind (D.state self.old.main).holds (D.faults self.old.main)) at).slot i) slot ≤ (parts self.old.mind [] 0).room }
        ensures now { PutsSlot at i slot (memory (parts self.old.mind (D.state self.old.main).holds (D.faults self.old.main))) (memory (parts self.new.mind (D.state self.new.main).holds (D.faults self.new.main))) }
        ensures frame { Frame (λ b. b ≡ at) (λ b. (b ≡ at) ⊎ (target slot ≡ Local b)) (cost ((memory (parts self.old.mind (D.state self.old.main).holds (D.faults self.old.main)) at).slot i) slot) (state_of (parts self.old.mind (D.state self.old.main).holds (D.faults self.old.main))) (state_of (parts self.new.mind (D.state self.new.main).holds (D.faults self.new.main))) }
        ensures hangs { Hangs at i slot (state_of (parts self.old.mind (D.state self.old.main).holds (D.faults self.old.main))) (state_of (parts self.new.mind (D.state self.new.main).holds (D.faults self.new.main))) }
        ensures order { KeepsOrder none (state_of (parts self.old.mind (D.state self.old.main).holds (D.faults self.old.main))) (state_of (parts self.new.mind (D.state self.new.main).holds (D.faults self.new.main))) }
        ensures no_wait { AddsNoWait none (state_of (parts self.old.mind (D.state self.old.main).holds (D.faults self.old.main))) (state_of (parts self.new.mind (D.state self.new.main).holds (D.faults self.new.main))) }
        ensures queues { Queues ((memory (parts self.old.mind (D.state self.old.main).holds (D.faults self.old.main)) at).slot i) slot (state_of (parts self.old.mind [] 0)).queued (state_of (parts self.new.mind [] 0)).queued }
        ensures removals { AddsRemovals ((memory (parts self.old.mind (D.state self.old.main).holds (D.faults self.old.main)) at).slot i) (state_of (parts self.old.mind (D.state self.old.main).holds (D.faults self.old.main))) (state_of (parts self.new.mind (D.state self.new.main).holds (D.faults self.new.main))) }
        ensures links { ((state_of (parts self.old.mind (D.state self.old.main).holds (D.faults self.old.main))).newborn at → ⊥) → (b : ℕ) → Through (state_of (parts self.old.mind (D.state self.old.main).holds (D.faults self.old.main))).newborn (state_of (parts self.old.mind (D.state self.old.main).holds (D.faults self.old.main))).now slot b → (state_of (parts self.new.mind (D.state self.new.main).holds (D.faults self.new.main))).newborn b → ⊥ }
        ensures keeps { CacheKeeps (parts self.old.mind (D.state self.old.main).holds (D.faults self.old.main)) (parts self.new.mind (D.state self.new.main).holds (D.faults self.new.main)) }
        ensures device { self.new.main ≡ self.old.main }
    {
        fo_put::put_slot(&mut self.mind, at, i, slot);
    }

    /// Clears a slot of a pinned block: at once, or, of a leaf of entries, when block `after` is settled, where it isn't yet (`remove_slot`
    /// of `fo_put`). So it waits wherever that block is dirty, and in the tree.
    pub fn remove_slot(&mut self, at: u32, i: u32, after: Option<u32>)
        requires pinned { IsPinned (parts self.old.mind [] 0).held at }
        requires current { (label_at (parts self.old.mind [] 0).region at).epoch ≡ (parts self.old.mind [] 0).one.high }
        requires slots { i < slot_count (label_at (parts self.old.mind [] 0).region at).kind }
        requires room { 0 < (parts self.old.mind [] 0).room }
        requires settled { Clears (parts self.old.mind [] 0).clears at i → ⊥ }
        requires after { IfSome after (λ leaf. (label_at (parts self.old.mind [] 0).region at).kind ≡ Dir 0) }
        ensures now { (PutsSlot at i (cleared ((memory (parts self.old.mind (D.state self.old.main).holds (D.faults self.old.main)) at).slot i)) (memory (parts self.old.mind (D.state self.old.main).holds (D.faults self.old.main))) (memory (parts self.new.mind (D.state self.new.main).holds (D.faults self.new.main))) × (Clears (parts self.new.mind [] 0).clears at i → ⊥)) ⊎ (SameImage (memory (parts self.new.mind (D.state self.new.main).holds (D.faults self.new.main))) (memory (parts self.old.mind (D.state self.old.main).holds (D.faults self.old.main))) × Clears (parts self.new.mind [] 0).clears at i × (after ≢ None)) }
        ensures frame { Frame (λ b. b ≡ at) (λ b. b ≡ at) 1 (state_of (parts self.old.mind (D.state self.old.main).holds (D.faults self.old.main))) (state_of (parts self.new.mind (D.state self.new.main).holds (D.faults self.new.main))) }
        ensures hangs { Hangs at i (cleared ((memory (parts self.old.mind (D.state self.old.main).holds (D.faults self.old.main)) at).slot i)) (state_of (parts self.old.mind (D.state self.old.main).holds (D.faults self.old.main))) (state_of (parts self.new.mind (D.state self.new.main).holds (D.faults self.new.main))) }
        ensures order { (b j : ℕ) → (Clears (parts self.new.mind [] 0).clears b j → Clears (parts self.old.mind [] 0).clears b j ⊎ ((b ≡ at) × (j ≡ i))) × (Clears (parts self.old.mind [] 0).clears b j → Clears (parts self.new.mind [] 0).clears b j) }
        ensures no_wait { AddsNoWait none (state_of (parts self.old.mind (D.state self.old.main).holds (D.faults self.old.main))) (state_of (parts self.new.mind (D.state self.new.main).holds (D.faults self.new.main))) }
        ensures queues { ((state_of (parts self.old.mind (D.state self.old.main).holds (D.faults self.old.main))).queued ≤ (state_of (parts self.new.mind (D.state self.new.main).holds (D.faults self.new.main))).queued) × ((c : ℕ) → target ((memory (parts self.old.mind (D.state self.old.main).holds (D.faults self.old.main)) at).slot i) ≡ Local c → Clears (parts self.new.mind [] 0).clears at i ⊎ QueuesOne (state_of (parts self.old.mind (D.state self.old.main).holds (D.faults self.old.main))) (state_of (parts self.new.mind (D.state self.new.main).holds (D.faults self.new.main)))) }
        ensures removals { AddsRemovals ((memory (parts self.old.mind (D.state self.old.main).holds (D.faults self.old.main)) at).slot i) (state_of (parts self.old.mind (D.state self.old.main).holds (D.faults self.old.main))) (state_of (parts self.new.mind (D.state self.new.main).holds (D.faults self.new.main))) }
        ensures keeps { CacheKeeps (parts self.old.mind (D.state self.old.main).holds (D.faults self.old.main)) (parts self.new.mind (D.state self.new.main).holds (D.faults self.new.main)) }
        ensures later { IfSome after (λ leaf. IsDirty (parts self.old.mind [] 0).turns (parts self.old.mind [] 0).held leaf → (IsNewborn (parts self.old.mind [] 0).facts leaf → ⊥) → Clears (parts self.new.mind [] 0).clears at i) }
        ensures is { ClearsOrWaits at i after (parts self.old.mind (D.state self.old.main).holds (D.faults self.old.main)) (parts self.new.mind (D.state self.new.main).holds (D.faults self.new.main)) }
        ensures device { self.new.main ≡ self.old.main }
    {
        fo_put::remove_slot(&mut self.mind, at, i, after);
    }
}
