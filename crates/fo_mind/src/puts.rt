//! Bytes are put into blocks.
ghost use Rattle.std.specs.Prelude.{◌≡◌, ◌+◌, ◌*◌, ◌<◌, ◌≤◌, ℕ, true, false, List, length, Some, option_map};
ghost use Rattle.fo_disk.specs.Disk.{Content as Holds};
ghost use Rattle.fo_buffers.specs.Held.{held_at, block_in};
ghost use Rattle.fo_crash.specs.Steps.{PutsBytes};
ghost use Rattle.fo_ports.specs.Blocks.{MayPut, put_at};
ghost use Rattle.fo_ports.specs.State.{AddsNoWait, Calm, none};
ghost use Rattle.fo_slots.specs.Read.{read};
ghost use Rattle.fo_facts.specs.Known.{fact_at};
ghost use Rattle.fo_bring.specs.Blocks.{Good};
ghost use Rattle.fo_waits.specs.Listed.{Listed, is_active};
ghost use Rattle.fo_mind.specs.Changes.{Refilled, takes_turn, turned, turned_facts};
ghost use Rattle.fo_mind.specs.MindParts.{parts};
ghost use Rattle.fo_mind.specs.Parts.{IsHeld, IsPinned, label_at, memory, state_of};

use crate::mind::Mind;
use crate::news::copied;
use fo_facts::Facts;
use fo_order::Order;
use fo_slots::put_bytes_into;

// A block that was changed takes a turn, where it is in the tree of memory and has none.
fn take_turn(order: &mut Order, facts: &mut Facts, at: u32)
    requires flags { at < length order.old.flags }
    requires facts { at < length facts.old }
    requires room { takes_turn facts.old order.old at ≡ true → 0 < order.old.room }
    ensures turns { order.new ≡ turned facts.old order.old at }
    ensures items { facts.new ≡ turned_facts facts.old order.old at }
{
    if !is_due(facts, order, at) {
        return;
    }
    let fact = facts.get(at);
    order.change(at, fact.rank);
    facts.owe_no_more(at);
}

// Whether a block is in the tree of memory and has no turn.
pub(crate) fn is_due(facts: &Facts, order: &Order, at: u32) -> bool
    requires flags { at < length order.now.flags }
    ensures { result ≡ takes_turn facts.now order.now at }
{
    facts.get(at).linked && !order.flags(at).dirty
}

impl Mind {
    // A held block gets these bytes. Where it takes a turn, room was kept for that.
    pub(crate) fn refill(&mut self, at: u32, bytes: &[u8])
        requires held { IsHeld self.old.buffers at }
        requires current { (label_at self.old.labels at).epoch ≡ self.old.one.high }
        requires owed { takes_turn self.old.facts self.old.order at ≡ true → (fact_at self.old.facts at).owes ≡ true }
        requires good { Good self.old.first self.old.count (label_at self.old.labels at).kind bytes.now }
        requires used { (a k : ℕ) → Listed self.old.waits.items a at k → is_active ((read (label_at self.old.labels at).kind bytes.now).slot (2 * k)) ≡ true }
        ensures is { (disk : Holds) (faults : ℕ) → Refilled at bytes.now (parts self.old disk faults) (parts self.new disk faults) }
        ensures queue { self.new.queue ≡ self.old.queue }
    {
        self.buffers.write(at, 0, bytes);
        take_turn(&mut self.order, &mut self.facts, at);
    }

    /// Puts bytes into a pinned block, none of which spells a slot.
    pub fn put_bytes(&mut self, at: u32, from: u32, bytes: &[u8])
        requires pinned { IsPinned self.old.buffers at }
        requires current { (label_at self.old.labels at).epoch ≡ self.old.one.high }
        requires within { from + length bytes.now ≤ 8192 }
        requires place { MayPut (label_at self.old.labels at).kind from (from + length bytes.now) }
        ensures now { (disk : Holds) (faults : ℕ) → PutsBytes at (put_at from bytes.now ((memory (parts self.old disk faults) at).bytes)) (memory (parts self.old disk faults)) (memory (parts self.new disk faults)) }
        ensures calm { (disk : Holds) (faults : ℕ) → Calm (λ b. b ≡ at) 0 (state_of (parts self.old disk faults)) (state_of (parts self.new disk faults)) }
        ensures no_wait { (disk : Holds) (faults : ℕ) → AddsNoWait none (state_of (parts self.old disk faults)) (state_of (parts self.new disk faults)) }
        ensures refilled { (was : List ℕ) → Some was ≡ option_map block_in (held_at self.old.buffers at) → (disk : Holds) (faults : ℕ) → Refilled at (put_at from bytes.now was) (parts self.old disk faults) (parts self.new disk faults) }
    {
        let label = self.label(at);
        let mut block = copied(&self.buffers, at);
        put_bytes_into(label.kind, from as usize, bytes, &mut block);
        self.refill(at, &block);
    }
}
