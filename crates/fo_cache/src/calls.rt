//! Blocks are got, given out and filled.
use crate::cache::Cache;
use fo_disk::Disk;
use fo_image::Kind;
use fo_ports::BlockError;

impl<D: Disk> Cache<D> {
    ghost use Rattle.std.specs.Prelude.{◌≡◌, ◌↔◌, ◌+◌, ◌-◌, ◌^◌, ◌<◌, ◌≤◌, ℕ, [], true, false, length, MatchOption, IsOk, OnOk, OnErr, IfErr};
    ghost use Rattle.fo_base.specs.Cause.{Rose};
    ghost use Rattle.fo_image.specs.declared.types.State.TheVariants.{Live};
    ghost use Rattle.fo_image.specs.declared.types.Pointer.TheVariants.{Local};
    ghost use Rattle.fo_image.specs.Usable.{live_label};
    ghost use Rattle.fo_crash.specs.Images.{target};
    ghost use Rattle.fo_crash.specs.Steps.{PutsBytes};
    ghost use Rattle.fo_ports.specs.Blocks.{IsFormed, IsLevel, IsRanked, MayPut, Reads, ReadsSlots, blank, put_at};
    ghost use Rattle.fo_ports.specs.Causes.{Caused};
    ghost use Rattle.fo_ports.specs.State.{AddsNoWait, Calm, Gives, Looks, none};
    ghost use Rattle.fo_mind.specs.MindParts.{parts};
    ghost use Rattle.fo_mind.specs.Turning.{Released, Unpinned, may_release};
    ghost use Rattle.fo_mind.specs.Parts.{CacheKeeps, Instead, IsBlock, IsPinned, bytes_at, label_at, memory, state_of};

    /// Copies a block of this kind and rank, as it was last put, and pins it while pins are left (`Mind::get`).
    pub fn get(&mut self, at: u32, kind: Kind, rank: u32, into: &mut [u8]) -> Result<(), BlockError>
        requires block { IsBlock (parts self.old.mind [] 0) at }
        requires length { length into.old ≡ 8192 }
        ensures bytes { OnOk result (Reads kind (memory (parts self.new.mind (D.state self.new.main).holds (D.faults self.new.main)) at) into.new × ReadsSlots kind (memory (parts self.new.mind (D.state self.new.main).holds (D.faults self.new.main)) at) into.new) }
        ensures formed { OnOk result (IsFormed kind rank into.new × ((label_at (parts self.old.mind [] 0).region at).kind ≡ kind)) }
        ensures names { OnOk result ((i below : ℕ) → target ((memory (parts self.new.mind (D.state self.new.main).holds (D.faults self.new.main)) at).slot i) ≡ Local below → IsBlock (parts self.new.mind [] 0) below) }
        ensures nothing { OnErr result (into.new ≡ into.old) }
        ensures pinned { OnOk result (0 < (parts self.old.mind [] 0).pins → IsPinned (parts self.new.mind [] 0).held at) }
        ensures again { IsPinned (parts self.old.mind [] 0).held at → (label_at (parts self.old.mind [] 0).region at).kind ≡ kind → IsRanked kind rank ((memory (parts self.old.mind (D.state self.old.main).holds (D.faults self.old.main)) at).bytes) → IsOk result }
        ensures no_pin { IsPinned (parts self.old.mind [] 0).held at → (label_at (parts self.old.mind [] 0).region at).kind ≡ kind → (parts self.new.mind [] 0).pins ≡ (parts self.old.mind [] 0).pins }
        ensures pins { (parts self.old.mind [] 0).pins ≤ (parts self.new.mind [] 0).pins + 1 }
        ensures looks { Looks (state_of (parts self.old.mind (D.state self.old.main).holds (D.faults self.old.main))) (state_of (parts self.new.mind (D.state self.new.main).holds (D.faults self.new.main))) }
        ensures keeps { CacheKeeps (parts self.old.mind (D.state self.old.main).holds (D.faults self.old.main)) (parts self.new.mind (D.state self.new.main).holds (D.faults self.new.main)) }
        ensures size { D.size self.new.main ≡ D.size self.old.main }
        ensures state { D.state self.new.main ≡ D.state self.old.main }
        ensures cause { IfErr result (Caused ⊥ (λ b. b ≡ at) (Rose (D.faults self.old.main) (D.faults self.new.main)) ⊥) }
    {
        self.mind.get(&mut self.main, at, kind, rank, into)
    }

    /// Brings a block of this kind into memory and pins it while pins are left, and copies nothing (`Mind::pin`).
    pub fn pin(&mut self, at: u32, kind: Kind, rank: u32) -> Result<(), BlockError>
        requires block { IsBlock (parts self.old.mind [] 0) at }
        ensures kind { OnOk result ((label_at (parts self.old.mind [] 0).region at).kind ≡ kind) }
        ensures pinned { OnOk result (0 < (parts self.old.mind [] 0).pins → IsPinned (parts self.new.mind [] 0).held at) }
        ensures again { IsPinned (parts self.old.mind [] 0).held at → (label_at (parts self.old.mind [] 0).region at).kind ≡ kind → IsOk result }
        ensures no_pin { IsPinned (parts self.old.mind [] 0).held at → (label_at (parts self.old.mind [] 0).region at).kind ≡ kind → (parts self.new.mind [] 0).pins ≡ (parts self.old.mind [] 0).pins }
        ensures pins { (parts self.old.mind [] 0).pins ≤ (parts self.new.mind [] 0).pins + 1 }
        ensures looks { Looks (state_of (parts self.old.mind (D.state self.old.main).holds (D.faults self.old.main))) (state_of (parts self.new.mind (D.state self.new.main).holds (D.faults self.new.main))) }
        ensures keeps { CacheKeeps (parts self.old.mind (D.state self.old.main).holds (D.faults self.old.main)) (parts self.new.mind (D.state self.new.main).holds (D.faults self.new.main)) }
        ensures size { D.size self.new.main ≡ D.size self.old.main }
        ensures state { D.state self.new.main ≡ D.state self.old.main }
        ensures cause { IfErr result (Caused ⊥ (λ b. b ≡ at) (Rose (D.faults self.old.main) (D.faults self.new.main)) ⊥) }
    {
        self.mind.pin(&mut self.main, at, kind, rank)
    }

    /// Gives out a block of zeros, for a place of this kind, tag and rank.
    pub fn new_block(&mut self, kind: Kind, tag: u32, rank: u32) -> u32
        requires spare { 0 < (parts self.old.mind [] 0).spare }
        requires level { IsLevel kind }
        ensures gives { Gives result (blank kind) (live_label kind tag (parts self.old.mind [] 0).one.high) (state_of (parts self.old.mind (D.state self.old.main).holds (D.faults self.old.main))) (state_of (parts self.new.mind (D.state self.new.main).holds (D.faults self.new.main))) }
        ensures instead { (x : ℕ) → Instead (parts self.new.mind [] 0).facts result x → ⊥ }
        ensures keeps { CacheKeeps (parts self.old.mind (D.state self.old.main).holds (D.faults self.old.main)) (parts self.new.mind (D.state self.new.main).holds (D.faults self.new.main)) }
        ensures device { self.new.main ≡ self.old.main }
    {
        self.mind.new_block(kind, tag, rank)
    }

    /// Gives out a copy of a pinned block, which is to come in its place.
    pub fn copy(&mut self, at: u32) -> u32
        requires spare { 0 < (parts self.old.mind [] 0).spare }
        requires pinned { IsPinned (parts self.old.mind [] 0).held at }
        ensures gives { Gives result (memory (parts self.old.mind (D.state self.old.main).holds (D.faults self.old.main)) at) (record (label_at (parts self.old.mind [] 0).region at) { state = Live; epoch = (parts self.old.mind [] 0).one.high; closing = 2 ^ 32 - 1 }) (state_of (parts self.old.mind (D.state self.old.main).holds (D.faults self.old.main))) (state_of (parts self.new.mind (D.state self.new.main).holds (D.faults self.new.main))) }
        ensures instead { (x : ℕ) → Instead (parts self.new.mind [] 0).facts result x ↔ (x ≡ at) }
        ensures keeps { CacheKeeps (parts self.old.mind (D.state self.old.main).holds (D.faults self.old.main)) (parts self.new.mind (D.state self.new.main).holds (D.faults self.new.main)) }
        ensures device { self.new.main ≡ self.old.main }
    {
        self.mind.copy(at)
    }

    /// Unpins one pinned block and gives its address, and None exactly where none is pinned.
    pub fn unpin(&mut self) -> Option<u32>
        ensures unpinned { MatchOption result ((parts self.new.mind [] 0 ≡ parts self.old.mind [] 0) × ((q : ℕ) → IsPinned (parts self.old.mind [] 0).held q → ⊥)) (λ at. Unpinned at (parts self.old.mind [] 0) (parts self.new.mind [] 0)) }
        ensures device { self.new.main ≡ self.old.main }
    {
        self.mind.unpin()
    }

    /// Gives a block up where it may be (`may_release`: held, neither pinned nor changed, settled, linked, and nothing waits for its
    /// entries): it becomes the first of the clean ones, or is forgotten for want of memory. The device has its bytes.
    pub fn release(&mut self, at: u32)
        requires block { IsBlock (parts self.old.mind [] 0) at }
        ensures gone { may_release (parts self.old.mind [] 0) at ≡ true → Released at (parts self.old.mind [] 0) (parts self.new.mind [] 0) }
        ensures kept { may_release (parts self.old.mind [] 0) at ≡ false → parts self.new.mind [] 0 ≡ parts self.old.mind [] 0 }
        ensures bytes { (b : ℕ) → (parts self.old.mind [] 0).region.first ≤ b → b < length (D.state self.old.main).holds → bytes_at (parts self.new.mind [] 0).held (D.state self.old.main).holds b ≡ bytes_at (parts self.old.mind [] 0).held (D.state self.old.main).holds b }
        ensures device { self.new.main ≡ self.old.main }
    {
        self.mind.release(at);
    }

    /// Puts bytes into a pinned block, none of which spells a slot.
    pub fn put_bytes(&mut self, at: u32, from: u32, bytes: &[u8])
        requires pinned { IsPinned (parts self.old.mind [] 0).held at }
        requires current { (label_at (parts self.old.mind [] 0).region at).epoch ≡ (parts self.old.mind [] 0).one.high }
        requires within { from + length bytes.now ≤ 8192 }
        requires place { MayPut (label_at (parts self.old.mind [] 0).region at).kind from (from + length bytes.now) }
        ensures now { PutsBytes at (put_at from bytes.now ((memory (parts self.old.mind (D.state self.old.main).holds (D.faults self.old.main)) at).bytes)) (memory (parts self.old.mind (D.state self.old.main).holds (D.faults self.old.main))) (memory (parts self.new.mind (D.state self.new.main).holds (D.faults self.new.main))) }
        ensures calm { Calm (λ b. b ≡ at) 0 (state_of (parts self.old.mind (D.state self.old.main).holds (D.faults self.old.main))) (state_of (parts self.new.mind (D.state self.new.main).holds (D.faults self.new.main))) }
        ensures no_wait { AddsNoWait none (state_of (parts self.old.mind (D.state self.old.main).holds (D.faults self.old.main))) (state_of (parts self.new.mind (D.state self.new.main).holds (D.faults self.new.main))) }
        ensures keeps { CacheKeeps (parts self.old.mind (D.state self.old.main).holds (D.faults self.old.main)) (parts self.new.mind (D.state self.new.main).holds (D.faults self.new.main)) }
        ensures device { self.new.main ≡ self.old.main }
    {
        self.mind.put_bytes(at, from, bytes);
    }
}
