//! Blocks are written and settled in their turns.
ghost use Rattle.std.specs.Prelude.{◌≡◌, ◌+◌, ◌<◌, ◌≤◌, ℕ, [], true, false, cond, length, Some, is_some, OnOk, OnErr};
ghost use Rattle.std.specs.Option.{option_map};
ghost use Rattle.fo_disk.specs.Disk.{Content as Holds};
ghost use Rattle.fo_buffers.specs.Held.{held_at, block_in, settled, updated};
ghost use Rattle.fo_order.specs.Turns.{IsTurn, flag_at};
ghost use Rattle.fo_labels.specs.Spelled.{SpellsLabels};
ghost use Rattle.fo_mind.specs.MindParts.{parts};
ghost use Rattle.fo_mind.specs.Parts.{IsPinned};
ghost use Rattle.fo_mind.specs.Turning.{HasTurn, KeepsTurn, Landed, Missed, Synced};

use crate::mind::Mind;
use fo_base::Memory;
use fo_buffers::Buffers;
use fo_order::Turn;

// A block is not dirty any more, where it is in the tree of memory.
fn settle_linked(buffers: &mut Buffers, at: u32, linked: bool)
    ensures { buffers.new ≡ cond linked (updated buffers.old at settled) buffers.old }
{
    if linked {
        buffers.settle(at);
    }
}

impl Mind {
    /// What is to be done next.
    pub fn next_turn(&mut self) -> Turn
        ensures turn { IsTurn self.old.order result }
        ensures same { (disk : Holds) (faults : ℕ) → parts self.new disk faults ≡ parts self.old disk faults }
    {
        self.order.turn()
    }

    /// The bytes of a held block.
    pub fn bytes_of(&self, at: u32) -> &[u8]
        requires { is_some (held_at self.now.buffers at) ≡ true }
        ensures value { Some result.now ≡ option_map block_in (held_at self.now.buffers at) }
        ensures len { length result.now ≡ 8192 }
    {
        self.buffers.bytes(at).unwrap()
    }

    /// Fills a block with what this block of the label table has to have.
    pub fn spell_labels(&self, at: u32, into: &mut [u8])
        requires table { 2 ≤ at }
        requires length { length into.old ≡ 8192 }
        ensures { SpellsLabels self.now.labels at into.new }
    {
        self.labels.spell(at, into);
    }

    /// Makes room for one turn more. This may want memory, and then nothing changes.
    pub fn keep_turn(&mut self) -> Result<(), Memory>
        ensures ok { OnOk result (HasTurn (parts self.new [] 0)) }
        ensures kept { OnOk result ((disk : Holds) (faults : ℕ) → parts self.new disk faults ≡ record (parts self.old disk faults) { turns = record self.old.order { room = self.old.order.room + 1 } }) }
        ensures err { OnErr result ((disk : Holds) (faults : ℕ) → parts self.new disk faults ≡ parts self.old disk faults) }
    {
        let Some(room) = self.order.room().checked_add(1) else {
            return Err(Memory);
        };
        self.order.reserve(room)
    }

    /// Makes room for the next turn of a block that is to be written, where it is pinned. Only this may want memory.
    pub fn keep_turn_of(&mut self, at: u32) -> Result<(), Memory>
        ensures ok { OnOk result (IsPinned self.new.buffers at → HasTurn (parts self.new [] 0)) }
        ensures kept { (disk : Holds) (faults : ℕ) → KeepsTurn (parts self.old disk faults) (parts self.new disk faults) }
    {
        if !self.buffers.is_pinned(at) {
            return Ok(());
        }
        self.keep_turn()
    }

    // A write of a block that has a turn answered Ok.
    fn landed(&mut self, at: u32)
        requires turn { (flag_at self.old.order at).dirty ≡ true }
        requires room { IsPinned self.old.buffers at → HasTurn (parts self.old [] 0) }
        ensures { (disk : Holds) (faults : ℕ) → Landed at (parts self.old disk faults) (parts self.new disk faults) }
    {
        let pinned = self.buffers.is_pinned(at);
        self.order.wrote(at, true);
        let fact = self.facts.get(at);
        self.facts.write(at, pinned);
        settle_linked(&mut self.buffers, at, fact.linked);
    }

    // A write of a block that has a turn failed.
    fn missed(&mut self, at: u32)
        requires turn { (flag_at self.old.order at).dirty ≡ true }
        ensures { (disk : Holds) (faults : ℕ) → Missed at (parts self.old disk faults) (parts self.new disk faults) }
    {
        self.order.wrote(at, false);
        self.facts.write(at, false);
    }

    // A sync answered Ok.
    fn synced(&mut self)
        ensures { (disk : Holds) (faults : ℕ) → Synced (parts self.old disk faults) (parts self.new disk faults) }
    {
        self.order.synced();
    }

    /// A write of a block that has a turn was answered: Ok or not.
    pub fn wrote(&mut self, at: u32, ok: bool)
        requires turn { (flag_at self.old.order at).dirty ≡ true }
        requires room { IsPinned self.old.buffers at → HasTurn (parts self.old [] 0) }
        ensures landed { ok ≡ true → (disk : Holds) (faults : ℕ) → Landed at (parts self.old disk faults) (parts self.new disk faults) }
        ensures missed { ok ≡ false → (disk : Holds) (faults : ℕ) → Missed at (parts self.old disk faults) (parts self.new disk faults) }
    {
        if ok {
            self.landed(at);
            return;
        }
        self.missed(at);
    }

    /// A sync was answered: Ok or not.
    pub fn settled(&mut self, ok: bool)
        ensures synced { ok ≡ true → (disk : Holds) (faults : ℕ) → Synced (parts self.old disk faults) (parts self.new disk faults) }
        ensures same { ok ≡ false → (disk : Holds) (faults : ℕ) → parts self.new disk faults ≡ parts self.old disk faults }
    {
        if ok {
            self.synced();
        }
    }
}
