//! Blocks are written and settled.
use crate::cache::Cache;
use fo_base::{BLOCK, Memory};
use fo_disk::{Disk, Failed};
use fo_order::Turn;

impl<D: Disk> Cache<D> {
    ghost use Rattle.std.specs.Prelude.{◌≡◌, ◌≢◌, ◌<◌, ◌≤◌, ℕ, [], true, length, OnOk, OnErr};
    ghost use Rattle.fo_base.specs.Cause.{HasCause};
    ghost use Rattle.fo_disk.specs.Disk.{IsSettled, IsSync, latest_of, versions_of};
    ghost use Rattle.fo_order.specs.declared.marks.Tried.TheVariants.{Written};
    ghost use Rattle.fo_order.specs.Turns.{IsTurn, flag_at};
    ghost use Rattle.fo_mind.specs.MindParts.{parts};
    ghost use Rattle.fo_mind.specs.Parts.{IsPinned, bytes_at};
    ghost use Rattle.fo_mind.specs.Turning.{HasTurn, KeepsTurn, Synced};
    ghost use Rattle.fo_cache.specs.Work.{AtMost};
    ghost use Rattle.fo_cache.specs.Written.{IsWritten};

    /// What is to be done next.
    pub fn next_turn(&mut self) -> Turn
        ensures turn { IsTurn (parts self.old.mind [] 0).turns result }
        ensures same { parts self.new.mind [] 0 ≡ parts self.old.mind [] 0 }
        ensures device { self.new.main ≡ self.old.main }
    {
        self.mind.next_turn()
    }

    /// Makes room for the next turn of a block that is to be written, where it is pinned. Only this may want memory.
    pub fn keep_turn_of(&mut self, at: u32) -> Result<(), Memory>
        ensures ok { OnOk result (IsPinned (parts self.new.mind [] 0).held at → HasTurn (parts self.new.mind [] 0)) }
        ensures kept { KeepsTurn (parts self.old.mind [] 0) (parts self.new.mind [] 0) }
        ensures device { self.new.main ≡ self.old.main }
    {
        self.mind.keep_turn_of(at)
    }

    /// Writes a block that has a turn: a data block with the bytes that memory has, or a block of the label table with its labels.
    pub fn write_turn(&mut self, at: u32) -> Result<(), Failed>
        requires turn { (flag_at (parts self.old.mind [] 0).turns at).dirty ≡ true }
        requires room { IsPinned (parts self.old.mind [] 0).held at → HasTurn (parts self.old.mind [] 0) }
        ensures wrote { IsWritten at result (D.state self.old.main) (D.state self.new.main) (parts self.old.mind [] 0) (parts self.new.mind [] 0) }
        ensures others { (k : ℕ) → k ≢ at → versions_of (D.state self.new.main).holds k ≡ versions_of (D.state self.old.main).holds k }
        ensures size { D.size self.new.main ≡ D.size self.old.main }
        ensures calls { AtMost 1 (D.calls self.old.main) (D.calls self.new.main) }
        ensures cause { HasCause (D.faults self.old.main) (D.faults self.new.main) result }
    {
        if self.mind.is_block(at) {
            return self.write_data(at);
        }
        self.write_labels(at)
    }

    // Writes a block of the label table that has a turn.
    fn write_labels(&mut self, at: u32) -> Result<(), Failed>
        requires turn { (flag_at (parts self.old.mind [] 0).turns at).dirty ≡ true }
        requires table { at < (parts self.old.mind [] 0).region.first }
        ensures wrote { IsWritten at result (D.state self.old.main) (D.state self.new.main) (parts self.old.mind [] 0) (parts self.new.mind [] 0) }
        ensures others { (k : ℕ) → k ≢ at → versions_of (D.state self.new.main).holds k ≡ versions_of (D.state self.old.main).holds k }
        ensures size { D.size self.new.main ≡ D.size self.old.main }
        ensures calls { AtMost 1 (D.calls self.old.main) (D.calls self.new.main) }
        ensures cause { HasCause (D.faults self.old.main) (D.faults self.new.main) result }
    {
        let mut block = [0; BLOCK];
        self.mind.spell_labels(at, &mut block);
        let wrote = self.main.write(at, &block);
        self.mind.wrote(at, wrote.is_ok());
        wrote
    }

    // Writes a data block that has a turn, with the bytes that memory has.
    fn write_data(&mut self, at: u32) -> Result<(), Failed>
        requires turn { (flag_at (parts self.old.mind [] 0).turns at).dirty ≡ true }
        requires data { (parts self.old.mind [] 0).region.first ≤ at }
        requires room { IsPinned (parts self.old.mind [] 0).held at → HasTurn (parts self.old.mind [] 0) }
        ensures wrote { IsWritten at result (D.state self.old.main) (D.state self.new.main) (parts self.old.mind [] 0) (parts self.new.mind [] 0) }
        ensures last { OnOk result (at < length (D.state self.old.main).holds → latest_of (versions_of (D.state self.new.main).holds at) ≡ bytes_at (parts self.old.mind [] 0).held (D.state self.old.main).holds at) }
        ensures others { (k : ℕ) → k ≢ at → versions_of (D.state self.new.main).holds k ≡ versions_of (D.state self.old.main).holds k }
        ensures size { D.size self.new.main ≡ D.size self.old.main }
        ensures calls { AtMost 1 (D.calls self.old.main) (D.calls self.new.main) }
        ensures cause { HasCause (D.faults self.old.main) (D.faults self.new.main) result }
    {
        let wrote = self.main.write(at, self.mind.bytes_of(at));
        let ok = wrote.is_ok();
        self.mind.wrote(at, ok);
        wrote
    }

    /// Settles what was written. Where it fails nothing counts as settled.
    pub fn sync_turn(&mut self) -> Result<(), Failed>
        ensures synced { OnOk result (Synced (parts self.old.mind [] 0) (parts self.new.mind [] 0)) }
        ensures nothing { OnErr result (parts self.new.mind [] 0 ≡ parts self.old.mind [] 0) }
        ensures each { OnOk result ((b : ℕ) → (parts self.old.mind [] 0).region.first ≤ b → b < length (D.state self.new.main).holds → (flag_at (parts self.old.mind [] 0).turns b).tried ≡ Written → IsSettled (D.state self.new.main).holds b) }
        ensures state { IsSync result (D.state self.old.main) (D.state self.new.main) }
        ensures size { D.size self.new.main ≡ D.size self.old.main }
        ensures calls { AtMost 1 (D.calls self.old.main) (D.calls self.new.main) }
        ensures cause { HasCause (D.faults self.old.main) (D.faults self.new.main) result }
    {
        let synced = self.main.sync();
        let ok = synced.is_ok();
        self.mind.settled(ok);
        synced
    }
}
