//! Calls of a request that change lists and counts alone, and room.
use crate::cache::Cache;
use fo_base::Memory;
use fo_disk::Disk;

impl<D: Disk> Cache<D> {
    ghost use Rattle.std.specs.Prelude.{◌≡◌, ◌⊎◌, ◌+◌, ◌<◌, ◌≤◌, ℕ, Bool, [], true, false, Ok, OnOk, OnErr, IfOk};
    ghost use Rattle.fo_image.specs.declared.types.Kind.TheVariants.{Dir};
    ghost use Rattle.fo_labels.specs.Region.{usable_count};
    ghost use Rattle.fo_crash.specs.Images.{SameImage};
    ghost use Rattle.fo_ports.specs.State.{AddsNoRemoval, AddsNoWait, Calm, Frame, KeepsCovered, KeepsOrder, Stays, Uses, WaitsForPairs, none};
    ghost use Rattle.fo_mind.specs.MindParts.{parts};
    ghost use Rattle.fo_mind.specs.Parts.{CacheKeeps, IsPinned, label_at, memory, state_of};
    ghost use Rattle.fo_mind.specs.Roomed.{Grown, Roomed};

    /// From now on what is put into a block waits for each pair of entries of a pinned leaf whose first is in use (`Mind::wait_for`).
    pub fn wait_for(&mut self, at: u32, on: u32)
        requires pinned { IsPinned (parts self.old.mind [] 0).held on }
        requires entries { (label_at (parts self.old.mind [] 0).region on).kind ≡ Dir 0 }
        requires room { 0 < (parts self.old.mind [] 0).room }
        ensures waits { WaitsForPairs at on (state_of (parts self.old.mind (D.state self.old.main).holds (D.faults self.old.main))) (state_of (parts self.new.mind (D.state self.new.main).holds (D.faults self.new.main))) }
        ensures no_wait { AddsNoWait (λ a. a ≡ at) (state_of (parts self.old.mind (D.state self.old.main).holds (D.faults self.old.main))) (state_of (parts self.new.mind (D.state self.new.main).holds (D.faults self.new.main))) }
        ensures now { SameImage (memory (parts self.new.mind (D.state self.new.main).holds (D.faults self.new.main))) (memory (parts self.old.mind (D.state self.old.main).holds (D.faults self.old.main))) }
        ensures calm { Calm none 1 (state_of (parts self.old.mind (D.state self.old.main).holds (D.faults self.old.main))) (state_of (parts self.new.mind (D.state self.new.main).holds (D.faults self.new.main))) }
        ensures keeps { CacheKeeps (parts self.old.mind (D.state self.old.main).holds (D.faults self.old.main)) (parts self.new.mind (D.state self.new.main).holds (D.faults self.new.main)) }
        ensures device { self.new.main ≡ self.old.main }
    {
        self.mind.wait_for(at, on);
    }

    /// Takes the file number that was granted.
    pub fn number_taken(&mut self)
        requires granted { (parts self.old.mind [] 0).granted ≡ true }
        ensures next { (parts self.new.mind [] 0).next ≡ (parts self.old.mind [] 0).next + 1 }
        ensures now { SameImage (memory (parts self.new.mind (D.state self.new.main).holds (D.faults self.new.main))) (memory (parts self.old.mind (D.state self.old.main).holds (D.faults self.old.main))) }
        ensures stays { Stays none none (state_of (parts self.old.mind (D.state self.old.main).holds (D.faults self.old.main))) (state_of (parts self.new.mind (D.state self.new.main).holds (D.faults self.new.main))) }
        ensures uses { Uses 0 0 (state_of (parts self.old.mind (D.state self.old.main).holds (D.faults self.old.main))) (state_of (parts self.new.mind (D.state self.new.main).holds (D.faults self.new.main))) }
        ensures order { KeepsOrder none (state_of (parts self.old.mind (D.state self.old.main).holds (D.faults self.old.main))) (state_of (parts self.new.mind (D.state self.new.main).holds (D.faults self.new.main))) }
        ensures covered { KeepsCovered (state_of (parts self.old.mind (D.state self.old.main).holds (D.faults self.old.main))) (state_of (parts self.new.mind (D.state self.new.main).holds (D.faults self.new.main))) }
        ensures no_wait { AddsNoWait none (state_of (parts self.old.mind (D.state self.old.main).holds (D.faults self.old.main))) (state_of (parts self.new.mind (D.state self.new.main).holds (D.faults self.new.main))) }
        ensures queued { (state_of (parts self.new.mind (D.state self.new.main).holds (D.faults self.new.main))).queued ≡ (state_of (parts self.old.mind (D.state self.old.main).holds (D.faults self.old.main))).queued }
        ensures no_removal { AddsNoRemoval (state_of (parts self.old.mind (D.state self.old.main).holds (D.faults self.old.main))) (state_of (parts self.new.mind (D.state self.new.main).holds (D.faults self.new.main))) }
        ensures dirty { (b : ℕ) → (state_of (parts self.new.mind (D.state self.new.main).holds (D.faults self.new.main))).dirty b → (state_of (parts self.old.mind (D.state self.old.main).holds (D.faults self.old.main))).dirty b }
        ensures keeps { CacheKeeps (parts self.old.mind (D.state self.old.main).holds (D.faults self.old.main)) (parts self.new.mind (D.state self.new.main).holds (D.faults self.new.main)) }
        ensures device { self.new.main ≡ self.old.main }
    {
        self.mind.number_taken();
    }

    /// Queues a root block to be closed alone at this epoch, once another block is settled.
    pub fn retire(&mut self, at: u32, epoch: u32, after: u32)
        requires room { 0 < (parts self.old.mind [] 0).room }
        ensures now { SameImage (memory (parts self.new.mind (D.state self.new.main).holds (D.faults self.new.main))) (memory (parts self.old.mind (D.state self.old.main).holds (D.faults self.old.main))) }
        ensures frame { Frame none none 1 (state_of (parts self.old.mind (D.state self.old.main).holds (D.faults self.old.main))) (state_of (parts self.new.mind (D.state self.new.main).holds (D.faults self.new.main))) }
        ensures order { KeepsOrder none (state_of (parts self.old.mind (D.state self.old.main).holds (D.faults self.old.main))) (state_of (parts self.new.mind (D.state self.new.main).holds (D.faults self.new.main))) }
        ensures no_wait { AddsNoWait none (state_of (parts self.old.mind (D.state self.old.main).holds (D.faults self.old.main))) (state_of (parts self.new.mind (D.state self.new.main).holds (D.faults self.new.main))) }
        ensures queues { (state_of (parts self.new.mind [] 0)).queued ≡ (state_of (parts self.old.mind [] 0)).queued + 1 }
        ensures removals { (b e : ℕ) (whole : Bool) → (state_of (parts self.new.mind (D.state self.new.main).holds (D.faults self.new.main))).removes b e whole → (state_of (parts self.old.mind (D.state self.old.main).holds (D.faults self.old.main))).removes b e whole ⊎ ((b ≡ at) × (e ≡ epoch) × (whole ≡ false)) }
        ensures keeps { CacheKeeps (parts self.old.mind (D.state self.old.main).holds (D.faults self.old.main)) (parts self.new.mind (D.state self.new.main).holds (D.faults self.new.main)) }
        ensures device { self.new.main ≡ self.old.main }
    {
        self.mind.retire(at, epoch, after);
    }

    /// Makes room for so many blocks, pins, and removals and waits; false where fewer blocks are usable (`Mind::make_room`).
    pub fn make_room(&mut self, blocks: u32, pins: u32, removals: u32) -> Result<bool, Memory>
        ensures few { usable_count (parts self.old.mind [] 0).one.low (parts self.old.mind [] 0).region < blocks → (result ≡ Ok false) × ((parts self.new.mind [] 0) ≡ (parts self.old.mind [] 0)) }
        ensures made { blocks ≤ usable_count (parts self.old.mind [] 0).one.low (parts self.old.mind [] 0).region → OnOk result (Roomed blocks pins removals (parts self.old.mind [] 0) (parts self.new.mind [] 0)) }
        ensures is { blocks ≤ usable_count (parts self.old.mind [] 0).one.low (parts self.old.mind [] 0).region → IfOk result (λ made. made ≡ true) }
        ensures err { OnErr result (Grown (parts self.old.mind [] 0) (parts self.new.mind [] 0)) }
        ensures device { self.new.main ≡ self.old.main }
    {
        self.mind.make_room(blocks, pins, removals)
    }
}
