//! The super block is written and settled.
use crate::cache::Cache;
use fo_base::BLOCK;
use fo_buffers::Block;
use fo_disk::{Disk, DiskFault, Failed};
use fo_image::{Super, write_super as spell_super};
use fo_ports::BlockError;

impl<D: Disk> Cache<D> {
    ghost use Rattle.std.specs.Prelude.{◌≡◌, ◌≢◌, ◌<◌, ◌≤◌, ℕ, List, [], ◌∷◌, true, false, length, None, Some, OnOk, OnErr, IfOk, IfErr, MatchOption};
    ghost use Rattle.fo_base.specs.Cause.{HasCause, Rose};
    ghost use Rattle.fo_disk.specs.Disk.{IsWrite, versions_of};
    ghost use Rattle.fo_image.specs.Format.{SpellsSuper, SuperHolds};
    ghost use Rattle.fo_image.specs.Field.{Four, number_at};
    ghost use Rattle.fo_ports.specs.Causes.{Caused};
    ghost use Rattle.fo_mind.specs.MindParts.{parts};
    ghost use Rattle.fo_image.specs.Usable.{is_usable};
    ghost use Rattle.fo_facts.specs.Known.{fact_at};
    ghost use Rattle.fo_mind.specs.Parts.{IsBlock, label_at};
    ghost use Rattle.fo_cache.specs.Called.{Makes, at_only, no_more};
    ghost use Rattle.fo_cache.specs.Settling.{Rested};
    ghost use Rattle.fo_cache.specs.Supers.{Counts, Doubted, IsFault, Overruled};
    ghost use Rattle.fo_cache.specs.Work.{AtMost};

    // Writes block 1 as memory has it.
    fn write_one(&mut self) -> Result<(), Failed>
        ensures wrote { IsWrite 1 (parts self.old.mind [] 0).one_bytes result (D.state self.old.main) (D.state self.new.main) }
        ensures mind { self.new.mind ≡ self.old.mind }
        ensures calls { AtMost 1 (D.calls self.old.main) (D.calls self.new.main) }
        ensures size { D.size self.new.main ≡ D.size self.old.main }
        ensures cause { HasCause (D.faults self.old.main) (D.faults self.new.main) result }
    {
        self.main.write(1, self.mind.one_bytes())
    }

    // Writes block 1 with what is tried.
    fn write_trial(&mut self, bytes: &[u8]) -> Result<(), Failed>
        requires tried { (parts self.old.mind [] 0).doubt ≡ Some bytes.now }
        requires length { length bytes.now ≡ 8192 }
        ensures wrote { IsWrite 1 bytes.now result (D.state self.old.main) (D.state self.new.main) }
        ensures mind { self.new.mind ≡ self.old.mind }
        ensures calls { AtMost 1 (D.calls self.old.main) (D.calls self.new.main) }
        ensures size { D.size self.new.main ≡ D.size self.old.main }
        ensures cause { HasCause (D.faults self.old.main) (D.faults self.new.main) result }
    {
        self.main.write(1, bytes)
    }

    // Another content of block 1 is in doubt.
    fn try_one(&mut self, block: Block)
        requires none { (parts self.old.mind [] 0).doubt ≡ None }
        requires below { (parts self.old.mind [] 0).next ≤ number_at Four 22 block }
        requires granted { (parts self.old.mind [] 0).granted ≡ true → (parts self.old.mind [] 0).next < number_at Four 22 block }
        ensures tried { parts self.new.mind [] 0 ≡ record (parts self.old.mind [] 0) { doubt = Some block } }
        ensures device { self.new.main ≡ self.old.main }
    {
        self.mind.try_one(block);
    }

    // Nothing is in doubt any more.
    fn overrule(&mut self) -> Option<Block>
        requires { 1 < length (D.state self.old.main).holds → versions_of (D.state self.old.main).holds 1 ≡ (parts self.old.mind [] 0).one_bytes ∷ [] }
        ensures given { result ≡ (parts self.old.mind [] 0).doubt }
        ensures settled { parts self.new.mind [] 0 ≡ record (parts self.old.mind [] 0) { doubt = None } }
        ensures device { self.new.main ≡ self.old.main }
    {
        self.mind.overrule()
    }

    // What was tried counts.
    fn accept(&mut self, one: Super) -> Option<Block>
        requires root { IsBlock (parts self.old.mind [] 0) one.active }
        requires linked { (fact_at (parts self.old.mind [] 0).facts one.active).linked ≡ true }
        requires live { is_usable (parts self.old.mind [] 0).one.low (label_at (parts self.old.mind [] 0).region one.active) ≡ false }
        requires high { one.high ≡ (parts self.old.mind [] 0).one.high }
        requires low { one.low ≡ (parts self.old.mind [] 0).one.low }
        requires spelled { (bytes : List ℕ) → (parts self.old.mind [] 0).doubt ≡ Some bytes → SpellsSuper one bytes }
        requires alone { (bytes : List ℕ) → (parts self.old.mind [] 0).doubt ≡ Some bytes → 1 < length (D.state self.old.main).holds → versions_of (D.state self.old.main).holds 1 ≡ bytes ∷ [] }
        ensures counts { MatchOption (parts self.old.mind [] 0).doubt ((result ≡ None) × (parts self.new.mind [] 0 ≡ parts self.old.mind [] 0))
            (λ bytes. (result ≡ Some (parts self.old.mind [] 0).one_bytes) × (parts self.new.mind [] 0 ≡ record (parts self.old.mind [] 0) { one = one; one_bytes = bytes; doubt = None })) }
        ensures device { self.new.main ≡ self.old.main }
    {
        self.mind.accept(one)
    }

    /// Writes block 1 as memory has it, and settles it with all that was written: nothing is in doubt any more. It gives back the block
    /// that was tried. It fails only where the device does, and then memory stays.
    pub fn settle_one(&mut self) -> Result<Option<Block>, BlockError>
        ensures overruled { OnOk result (Overruled (D.state self.old.main) (D.state self.new.main) (parts self.old.mind [] 0) (parts self.new.mind [] 0)) }
        ensures given { IfOk result (λ o. o ≡ (parts self.old.mind [] 0).doubt) }
        ensures nothing { OnErr result (parts self.new.mind [] 0 ≡ parts self.old.mind [] 0) }
        ensures others { (k : ℕ) → k ≢ 1 → Rested (versions_of (D.state self.old.main).holds k) (versions_of (D.state self.new.main).holds k) }
        ensures count { length (D.state self.new.main).holds ≡ length (D.state self.old.main).holds }
        ensures calls { AtMost 2 (D.calls self.old.main) (D.calls self.new.main) }
        ensures made { Makes (D.state self.old.main) (D.state self.new.main) (D.calls self.old.main) (D.calls self.new.main) 2 0 (at_only 1 1) no_more }
        ensures size { D.size self.new.main ≡ D.size self.old.main }
        ensures cause { IfErr result (Caused ⊥ (λ b. ⊥) (Rose (D.faults self.old.main) (D.faults self.new.main)) ⊥) }
        ensures failed { IfErr result IsFault }
        ensures later { D.faults self.old.main ≤ D.faults self.new.main }
    {
        let Ok(()) = self.write_one() else {
            return Err(BlockError::Fault(DiskFault::Write));
        };
        let Ok(()) = self.sync_turn() else {
            return Err(BlockError::Fault(DiskFault::Sync));
        };
        Ok(self.overrule())
    }

    /// Writes another super block into block 1, whose root is in the tree, and settles it with all that was written: then it counts, and the block that it replaces
    /// is given back. The next file number is up to what it says, and below it while it is granted. Only the device may fail; then it is in doubt, and memory has the one that it had.
    pub fn write_super(&mut self, one: Super, block: Block) -> Result<Option<Block>, BlockError>
        requires spelled { SuperHolds one }
        requires root { IsBlock (parts self.old.mind [] 0) one.active }
        requires linked { (fact_at (parts self.old.mind [] 0).facts one.active).linked ≡ true }
        requires live { is_usable (parts self.old.mind [] 0).one.low (label_at (parts self.old.mind [] 0).region one.active) ≡ false }
        requires high { one.high ≡ (parts self.old.mind [] 0).one.high }
        requires low { one.low ≡ (parts self.old.mind [] 0).one.low }
        requires certain { (parts self.old.mind [] 0).doubt ≡ None }
        requires below { (parts self.old.mind [] 0).next ≤ one.numbers }
        requires granted { (parts self.old.mind [] 0).granted ≡ true → (parts self.old.mind [] 0).next < one.numbers }
        ensures counts { OnOk result (Counts one (D.state self.old.main) (D.state self.new.main) (parts self.old.mind [] 0) (parts self.new.mind [] 0)) }
        ensures given { IfOk result (λ o. o ≡ Some (parts self.old.mind [] 0).one_bytes) }
        ensures doubted { OnErr result (Doubted one (parts self.old.mind [] 0) (parts self.new.mind [] 0)) }
        ensures others { (k : ℕ) → k ≢ 1 → Rested (versions_of (D.state self.old.main).holds k) (versions_of (D.state self.new.main).holds k) }
        ensures count { length (D.state self.new.main).holds ≡ length (D.state self.old.main).holds }
        ensures calls { AtMost 2 (D.calls self.old.main) (D.calls self.new.main) }
        ensures size { D.size self.new.main ≡ D.size self.old.main }
        ensures cause { IfErr result (Caused ⊥ (λ b. ⊥) (Rose (D.faults self.old.main) (D.faults self.new.main)) ⊥) }
        ensures failed { IfErr result IsFault }
        ensures later { D.faults self.old.main ≤ D.faults self.new.main }
    {
        let mut bytes = [0; BLOCK];
        spell_super(&one, &mut bytes);
        let mut trial = block;
        trial.fill(&bytes);
        self.try_one(trial);
        let Ok(()) = self.write_trial(&bytes) else {
            return Err(BlockError::Fault(DiskFault::Write));
        };
        let Ok(()) = self.sync_turn() else {
            return Err(BlockError::Fault(DiskFault::Sync));
        };
        Ok(self.accept(one))
    }
}
