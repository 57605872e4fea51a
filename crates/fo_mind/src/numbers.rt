//! File numbers are taken, and root blocks are retired.
ghost use Rattle.std.specs.Prelude.{◌≡◌, ◌⊎◌, ◌+◌, ◌-◌, ◌<◌, ℕ, Bool, [], ◌∷◌, ◌++◌, true, false};
ghost use Rattle.fo_disk.specs.Disk.{Content as Holds};
ghost use Rattle.fo_image.specs.declared.types.Kind.TheVariants.{Root};
ghost use Rattle.fo_crash.specs.Images.{SameImage};
ghost use Rattle.fo_ports.specs.State.{AddsNoRemoval, AddsNoWait, Frame, KeepsCovered, KeepsOrder, Stays, Uses, none};
ghost use Rattle.fo_mind.specs.MindParts.{parts};
ghost use Rattle.fo_mind.specs.Parts.{CacheKeeps, memory, state_of};

use crate::mind::Mind;
use fo_image::Kind;
use fo_unlink::Removal;

impl Mind {
    /// Takes the file number that was granted.
    pub fn number_taken(&mut self)
        requires granted { self.old.granted ≡ true }
        ensures next { self.new.next ≡ self.old.next + 1 }
        ensures now { (disk : Holds) (faults : ℕ) → SameImage (memory (parts self.new disk faults)) (memory (parts self.old disk faults)) }
        ensures stays { (disk : Holds) (faults : ℕ) → Stays none none (state_of (parts self.old disk faults)) (state_of (parts self.new disk faults)) }
        ensures uses { (disk : Holds) (faults : ℕ) → Uses 0 0 (state_of (parts self.old disk faults)) (state_of (parts self.new disk faults)) }
        ensures order { (disk : Holds) (faults : ℕ) → KeepsOrder none (state_of (parts self.old disk faults)) (state_of (parts self.new disk faults)) }
        ensures covered { (disk : Holds) (faults : ℕ) → KeepsCovered (state_of (parts self.old disk faults)) (state_of (parts self.new disk faults)) }
        ensures no_wait { (disk : Holds) (faults : ℕ) → AddsNoWait none (state_of (parts self.old disk faults)) (state_of (parts self.new disk faults)) }
        ensures no_removal { (disk : Holds) (faults : ℕ) → AddsNoRemoval (state_of (parts self.old disk faults)) (state_of (parts self.new disk faults)) }
        ensures keeps { (disk : Holds) (faults : ℕ) → CacheKeeps (parts self.old disk faults) (parts self.new disk faults) }
        ensures rest { (disk : Holds) (faults : ℕ) → parts self.new disk faults ≡ record (parts self.old disk faults) { next = self.old.next + 1; granted = false } }
    {
        self.next += 1;
        self.granted = false;
    }

    /// Queues a root block to be closed alone at this epoch, once another block is settled.
    pub fn retire(&mut self, at: u32, epoch: u32, after: u32)
        requires room { 0 < self.old.room }
        ensures now { (disk : Holds) (faults : ℕ) → SameImage (memory (parts self.new disk faults)) (memory (parts self.old disk faults)) }
        ensures frame { (disk : Holds) (faults : ℕ) → Frame none none 1 (state_of (parts self.old disk faults)) (state_of (parts self.new disk faults)) }
        ensures order { (disk : Holds) (faults : ℕ) → KeepsOrder none (state_of (parts self.old disk faults)) (state_of (parts self.new disk faults)) }
        ensures no_wait { (disk : Holds) (faults : ℕ) → AddsNoWait none (state_of (parts self.old disk faults)) (state_of (parts self.new disk faults)) }
        ensures removals { (disk : Holds) (faults : ℕ) (b e : ℕ) (whole : Bool) → (state_of (parts self.new disk faults)).removes b e whole → (state_of (parts self.old disk faults)).removes b e whole ⊎ ((b ≡ at) × (e ≡ epoch) × (whole ≡ false)) }
        ensures keeps { (disk : Holds) (faults : ℕ) → CacheKeeps (parts self.old disk faults) (parts self.new disk faults) }
        ensures rest { (disk : Holds) (faults : ℕ) → parts self.new disk faults ≡ record (parts self.old disk faults) { room = self.old.room - 1; removals = self.old.queue.removals ++ (record { at = at; kind = Root; whole = false; epoch = epoch; after = after }) ∷ [] } }
    {
        self.room -= 1;
        self.queue.push(Removal {
            at,
            kind: Kind::Root,
            whole: false,
            epoch,
            after,
        });
    }
}
