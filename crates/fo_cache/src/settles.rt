//! All that has a turn is written and settled.
ghost use Rattle.fo_facts.specs.Known.{fact_at};

use crate::cache::Cache;
use fo_disk::{Disk, DiskFault};
use fo_order::Turn;
use fo_ports::BlockError;

impl<D: Disk> Cache<D> {
    ghost use Rattle.std.specs.Prelude.{◌≡◌, ◌+◌, ◌<◌, ◌≤◌, ℕ, [], true, false, OnOk, IfOk, IfErr};
    ghost use Rattle.fo_base.specs.Cause.{Rose};
    ghost use Rattle.fo_order.specs.Turns.{IsDue, IsNext, IsQuiet};
    ghost use Rattle.fo_ports.specs.Causes.{Caused};
    ghost use Rattle.fo_ports.specs.State.{Rests, StaysKnown};
    ghost use Rattle.fo_mind.specs.MindParts.{parts};
    ghost use Rattle.fo_mind.specs.Parts.{CacheKeeps, IsPinned, label_at, state_of};
    ghost use Rattle.fo_cache.specs.Called.{Makes, no_more, turns_of};
    ghost use Rattle.fo_cache.specs.Settling.{Settles};
    ghost use Rattle.fo_cache.specs.Work.{AtMost, work};

    /// Writes and settles blocks in their turns, until nothing is to be written and all is settled. Where a write or a sync fails, or
    /// memory is wanting for the next turn of a pinned block, it ends; what was written until then stays so. Each block that has a turn is
    /// written once at most, and no other.
    pub fn settle_turns(&mut self) -> Result<(), BlockError>
        ensures quiet { OnOk result (IsQuiet (parts self.new.mind [] 0).turns) }
        ensures settles { Settles (D.state self.old.main) (D.state self.new.main) (parts self.old.mind [] 0) (parts self.new.mind [] 0) }
        ensures rests { Rests (state_of (parts self.old.mind (D.state self.old.main).holds (D.faults self.old.main))) (state_of (parts self.new.mind (D.state self.new.main).holds (D.faults self.new.main))) }
        ensures known { (b : ℕ) → IsPinned (parts self.old.mind [] 0).held b → StaysKnown (state_of (parts self.old.mind (D.state self.old.main).holds (D.faults self.old.main))) (state_of (parts self.new.mind (D.state self.new.main).holds (D.faults self.new.main))) b }
        ensures blocks { (b : ℕ) → (label_at (parts self.new.mind [] 0).region b ≡ label_at (parts self.old.mind [] 0).region b) × (IsPinned (parts self.old.mind [] 0).held b → IsPinned (parts self.new.mind [] 0).held b) × ((fact_at (parts self.old.mind [] 0).facts b).sealed ≡ true → (fact_at (parts self.new.mind [] 0).facts b).sealed ≡ true) }
        ensures room { ((parts self.new.mind [] 0).spare ≡ (parts self.old.mind [] 0).spare) × ((parts self.new.mind [] 0).pins ≡ (parts self.old.mind [] 0).pins) × ((parts self.new.mind [] 0).room ≡ (parts self.old.mind [] 0).room) }
        ensures keeps { CacheKeeps (parts self.old.mind (D.state self.old.main).holds (D.faults self.old.main)) (parts self.new.mind (D.state self.new.main).holds (D.faults self.new.main)) }
        ensures calls { AtMost (work (parts self.old.mind [] 0).turns) (D.calls self.old.main) (D.calls self.new.main) }
        ensures made { Makes (D.state self.old.main) (D.state self.new.main) (D.calls self.old.main) (D.calls self.new.main) (work (parts self.old.mind [] 0).turns) 0 (turns_of (parts self.old.mind [] 0).turns) no_more }
        ensures size { D.size self.new.main ≡ D.size self.old.main }
        ensures cause { IfErr result (Caused ⊥ (λ b. ⊥) (Rose (D.faults self.old.main) (D.faults self.new.main)) ⊥) }
        ensures later { D.faults self.old.main ≤ D.faults self.new.main }
    {
        self.take_turns()
    }

    // Takes turns until none is left.
    fn take_turns(&mut self) -> Result<(), BlockError>
        ensures quiet { OnOk result (IsQuiet (parts self.new.mind [] 0).turns) }
        ensures settles { Settles (D.state self.old.main) (D.state self.new.main) (parts self.old.mind [] 0) (parts self.new.mind [] 0) }
        ensures calls { AtMost (work (parts self.old.mind [] 0).turns) (D.calls self.old.main) (D.calls self.new.main) }
        ensures made { Makes (D.state self.old.main) (D.state self.new.main) (D.calls self.old.main) (D.calls self.new.main) (work (parts self.old.mind [] 0).turns) 0 (turns_of (parts self.old.mind [] 0).turns) no_more }
        ensures size { D.size self.new.main ≡ D.size self.old.main }
        ensures cause { IfErr result (Caused ⊥ (λ b. ⊥) (Rose (D.faults self.old.main) (D.faults self.new.main)) ⊥) }
        ensures later { D.faults self.old.main ≤ D.faults self.new.main }
    {
        while !self.take_turn()? {}
        Ok(())
    }

    // Does what is to be done next, and answers whether that was nothing. Else less is left to do.
    fn take_turn(&mut self) -> Result<bool, BlockError>
        ensures idle { IfOk result (λ b. b ≡ true → IsQuiet (parts self.new.mind [] 0).turns) }
        ensures settles { Settles (D.state self.old.main) (D.state self.new.main) (parts self.old.mind [] 0) (parts self.new.mind [] 0) }
        ensures less { IfOk result (λ b. b ≡ false → work (parts self.new.mind [] 0).turns < work (parts self.old.mind [] 0).turns) }
        ensures calls { AtMost (work (parts self.old.mind [] 0).turns) (D.calls self.old.main) (D.calls self.new.main) }
        ensures spent { OnOk result (D.calls self.new.main + work (parts self.new.mind [] 0).turns ≤ D.calls self.old.main + work (parts self.old.mind [] 0).turns) }
        ensures made { Makes (D.state self.old.main) (D.state self.new.main) (D.calls self.old.main) (D.calls self.new.main) (work (parts self.old.mind [] 0).turns) 0 (turns_of (parts self.old.mind [] 0).turns) no_more }
        ensures makes { OnOk result (Makes (D.state self.old.main) (D.state self.new.main) (D.calls self.old.main) (D.calls self.new.main) (work (parts self.old.mind [] 0).turns) (work (parts self.new.mind [] 0).turns) (turns_of (parts self.old.mind [] 0).turns) (turns_of (parts self.new.mind [] 0).turns)) }
        ensures size { D.size self.new.main ≡ D.size self.old.main }
        ensures cause { IfErr result (Caused ⊥ (λ b. ⊥) (Rose (D.faults self.old.main) (D.faults self.new.main)) ⊥) }
        ensures later { D.faults self.old.main ≤ D.faults self.new.main }
    {
        match self.next_turn() {
            Turn::Idle => Ok(true),
            Turn::Write(at) => self.write_next(at),
            Turn::Sync => self.sync_next(),
        }
    }

    // Writes the block that is next.
    fn write_next(&mut self, at: u32) -> Result<bool, BlockError>
        requires next { IsNext (parts self.old.mind [] 0).turns at }
        ensures idle { IfOk result (λ b. b ≡ false) }
        ensures settles { Settles (D.state self.old.main) (D.state self.new.main) (parts self.old.mind [] 0) (parts self.new.mind [] 0) }
        ensures less { OnOk result (work (parts self.new.mind [] 0).turns < work (parts self.old.mind [] 0).turns) }
        ensures calls { AtMost (work (parts self.old.mind [] 0).turns) (D.calls self.old.main) (D.calls self.new.main) }
        ensures spent { OnOk result (D.calls self.new.main + work (parts self.new.mind [] 0).turns ≤ D.calls self.old.main + work (parts self.old.mind [] 0).turns) }
        ensures made { Makes (D.state self.old.main) (D.state self.new.main) (D.calls self.old.main) (D.calls self.new.main) (work (parts self.old.mind [] 0).turns) 0 (turns_of (parts self.old.mind [] 0).turns) no_more }
        ensures makes { OnOk result (Makes (D.state self.old.main) (D.state self.new.main) (D.calls self.old.main) (D.calls self.new.main) (work (parts self.old.mind [] 0).turns) (work (parts self.new.mind [] 0).turns) (turns_of (parts self.old.mind [] 0).turns) (turns_of (parts self.new.mind [] 0).turns)) }
        ensures size { D.size self.new.main ≡ D.size self.old.main }
        ensures cause { IfErr result (Caused ⊥ (λ b. ⊥) (Rose (D.faults self.old.main) (D.faults self.new.main)) ⊥) }
        ensures later { D.faults self.old.main ≤ D.faults self.new.main }
    {
        let Ok(()) = self.keep_turn_of(at) else {
            return Err(BlockError::Memory);
        };
        let Ok(()) = self.write_turn(at) else {
            return Err(BlockError::Fault(DiskFault::Write));
        };
        Ok(false)
    }

    // Settles what was written.
    fn sync_next(&mut self) -> Result<bool, BlockError>
        requires due { IsDue (parts self.old.mind [] 0).turns }
        ensures idle { IfOk result (λ b. b ≡ false) }
        ensures settles { Settles (D.state self.old.main) (D.state self.new.main) (parts self.old.mind [] 0) (parts self.new.mind [] 0) }
        ensures less { OnOk result (work (parts self.new.mind [] 0).turns < work (parts self.old.mind [] 0).turns) }
        ensures calls { AtMost (work (parts self.old.mind [] 0).turns) (D.calls self.old.main) (D.calls self.new.main) }
        ensures spent { OnOk result (D.calls self.new.main + work (parts self.new.mind [] 0).turns ≤ D.calls self.old.main + work (parts self.old.mind [] 0).turns) }
        ensures made { Makes (D.state self.old.main) (D.state self.new.main) (D.calls self.old.main) (D.calls self.new.main) (work (parts self.old.mind [] 0).turns) 0 (turns_of (parts self.old.mind [] 0).turns) no_more }
        ensures makes { OnOk result (Makes (D.state self.old.main) (D.state self.new.main) (D.calls self.old.main) (D.calls self.new.main) (work (parts self.old.mind [] 0).turns) (work (parts self.new.mind [] 0).turns) (turns_of (parts self.old.mind [] 0).turns) (turns_of (parts self.new.mind [] 0).turns)) }
        ensures size { D.size self.new.main ≡ D.size self.old.main }
        ensures cause { IfErr result (Caused ⊥ (λ b. ⊥) (Rose (D.faults self.old.main) (D.faults self.new.main)) ⊥) }
        ensures later { D.faults self.old.main ≤ D.faults self.new.main }
    {
        let Ok(()) = self.sync_turn() else {
            return Err(BlockError::Fault(DiskFault::Sync));
        };
        Ok(false)
    }
}
