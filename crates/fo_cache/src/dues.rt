//! Slots that wait are cleared, and waits end.
use crate::cache::Cache;
use fo_disk::Disk;

impl<D: Disk> Cache<D> {
    ghost use Rattle.std.specs.Prelude.{◌≡◌, ◌<◌, ◌≤◌, ℕ, [], true, false, length, MatchOption};
    ghost use Rattle.fo_disk.specs.Disk.{Content as Holds};
    ghost use Rattle.fo_mind.specs.of_waits.Listed.{Clears, ClearsAfter};
    ghost use Rattle.fo_mind.specs.Due.{ClearedDue, IsDueSlot, is_over};
    ghost use Rattle.fo_mind.specs.MindParts.{parts};
    ghost use Rattle.fo_mind.specs.Sealed.{SealsPinned};
    ghost use Rattle.fo_cache.specs.Easing.{Eases};
    ghost use Rattle.fo_cache.specs.Work.{calls_left};

    /// A slot that waits for a leaf that is settled, and None exactly where none does.
    pub fn next_due(&self) -> Option<(u32, u32)>
        ensures { MatchOption result ((b j leaf : ℕ) → ClearsAfter (parts self.now.mind [] 0).clears b j leaf → is_over (parts self.now.mind [] 0).turns leaf ≡ false) (λ s. IsDueSlot (parts self.now.mind [] 0).turns (parts self.now.mind [] 0).clears s.0 s.1 × Clears (parts self.now.mind [] 0).clears s.0 s.1) }
    {
        self.mind.next_due()
    }

    /// A slot that waits for a settled leaf is cleared, with the unit of room that was kept for it, whether its block is pinned or not; what
    /// left with it is queued, and no more (`ClearedDue`). No memory is wanted.
    pub fn clear_due(&mut self, at: u32, i: u32)
        requires waits { Clears (parts self.old.mind [] 0).clears at i }
        requires due { IsDueSlot (parts self.old.mind [] 0).turns (parts self.old.mind [] 0).clears at i }
        ensures cleared { (disk : Holds) (faults : ℕ) → ClearedDue at i (parts self.old.mind disk faults) (parts self.new.mind disk faults) }
        ensures eases { Eases (parts self.old.mind (D.state self.old.main).holds (D.faults self.old.main)) (parts self.new.mind (D.state self.new.main).holds (D.faults self.new.main)) }
        ensures fewer { length (parts self.new.mind [] 0).clears < length (parts self.old.mind [] 0).clears }
        ensures left { calls_left (parts self.new.mind [] 0) ≤ calls_left (parts self.old.mind [] 0) }
        ensures device { self.new.main ≡ self.old.main }
    {
        self.mind.clear_due(at, i);
    }

    /// No block waits for an entry any more: all that was put is settled.
    pub fn waits_over(&mut self)
        ensures over { parts self.new.mind [] 0 ≡ record (parts self.old.mind [] 0) { waits = [] } }
        ensures eases { Eases (parts self.old.mind (D.state self.old.main).holds (D.faults self.old.main)) (parts self.new.mind (D.state self.new.main).holds (D.faults self.new.main)) }
        ensures device { self.new.main ≡ self.old.main }
    {
        self.mind.waits_over();
    }

    /// Each pinned block that is in the tree is sealed: to be called where all is settled.
    pub fn seal_pinned(&mut self)
        ensures sealed { SealsPinned (parts self.old.mind [] 0) (parts self.new.mind [] 0) }
        ensures eases { Eases (parts self.old.mind (D.state self.old.main).holds (D.faults self.old.main)) (parts self.new.mind (D.state self.new.main).holds (D.faults self.new.main)) }
        ensures device { self.new.main ≡ self.old.main }
    {
        self.mind.seal_pinned();
    }
}
