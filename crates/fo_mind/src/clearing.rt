//! Slots wait to be cleared, and waits end.
ghost use Rattle.std.specs.Prelude.{◌≡◌, ◌+◌, ◌<◌, ◌≤◌, ℕ, [], true, false, cond, List, Option, MatchOption, length, slice_set};
ghost use Rattle.std.specs.List.{filter};
ghost use Rattle.std.specs.Vec.{vec_len, vec_capacity};
ghost use Rattle.fo_disk.specs.Disk.{Content as Holds};
ghost use Rattle.fo_image.specs.declared.types.Kind.TheVariants.{Dir};
ghost use Rattle.fo_ports.specs.Blocks.{slot_count};
ghost use Rattle.fo_order.specs.Turns.{flag_at};
ghost use Rattle.fo_waits.specs.Listed.{Clears, ClearsAfter};
ghost use Rattle.fo_mind.specs.Due.{ClearedDue, IsDueSlot, Recalled, is_over, next_of};
ghost use Rattle.fo_facts.specs.Known.{fact_at, owing_as};
ghost use Rattle.fo_mind.specs.Changes.{takes_turn};
ghost use Rattle.fo_waits.specs.Ended.{EndsFirst, is_other};
ghost use Rattle.fo_mind.specs.Ended.{Delayed, Ended};
ghost use Rattle.fo_mind.specs.MindParts.{parts};
ghost use Rattle.fo_mind.specs.Parts.{IsPinned, label_at};
ghost use Rattle.fo_mind.specs.Sound.{Making};

use crate::mind::Mind;
use crate::pins::is_settled;
use crate::puts::is_due;
use fo_facts::Facts;
use fo_order::Order;
use fo_waits::{Clearing, end_first, take_out};

// Whether a block has no turn, and what was written of it is settled.
fn is_over(order: &Order, leaf: u32) -> bool
    ensures { result ≡ is_over order.now leaf }
{
    if order.len() <= leaf as usize {
        return true;
    }
    let flags = order.flags(leaf);
    !flags.dirty && is_settled(flags)
}

// The first slot whose leaf is settled.
fn next_in(clears: &[Clearing], order: &Order) -> Option<(u32, u32)>
    ensures { result ≡ next_of order.now clears.now }
{
    for c in clears {
        if is_over(order, c.after) {
            return Some((c.at, c.slot));
        }
    }
    None
}

// Room is kept for the next turn of a block, where it has none and is in the tree.
fn owe_due(facts: &mut Facts, order: &Order, at: u32)
    requires flags { at < length order.now.flags }
    requires facts { at < length facts.old }
    ensures owed { takes_turn facts.new order.now at ≡ true → (fact_at facts.new at).owes ≡ true }
    ensures is { facts.new ≡ cond (takes_turn facts.old order.now at) (slice_set facts.old at (owing_as (fact_at facts.old at).rank (fact_at facts.old at))) facts.old }
{
    if is_due(facts, order, at) {
        let rank = facts.get(at).rank;
        facts.owe(at, rank);
    }
}

impl Mind {
    /// Where slot i is the first entry of a pair, no block waits for that pair any more.
    pub fn end_waits(&mut self, at: u32, i: u32)
        ensures { (disk : Holds) (faults : ℕ) → Ended at i (parts self.old disk faults) (parts self.new disk faults) }
    {
        end_first(&mut self.waits, at, i);
    }

    /// A slot of a pinned leaf of entries is to be cleared when another leaf is settled.
    pub fn clear_later(&mut self, at: u32, i: u32, after: u32)
        requires pinned { IsPinned self.old.buffers at }
        requires entries { (label_at self.old.labels at).kind ≡ Dir 0 }
        requires current { (label_at self.old.labels at).epoch ≡ self.old.one.high }
        requires slots { i < slot_count (Dir 0) }
        requires room { 0 < self.old.room }
        ensures { (disk : Holds) (faults : ℕ) → Delayed at i after (parts self.old disk faults) (parts self.new disk faults) }
    {
        self.room -= 1;
        self.clears.push_reserved(Clearing { at, slot: i, after });
    }

    /// Whether a block has no turn, and what was written of it is settled.
    pub fn is_over(&self, leaf: u32) -> bool
        ensures { result ≡ is_over self.now.order leaf }
    {
        is_over(&self.order, leaf)
    }

    /// A slot that waits for a leaf that is settled, and None exactly where none does.
    pub fn next_due(&self) -> Option<(u32, u32)>
        ensures { MatchOption result ((b j leaf : ℕ) → ClearsAfter self.now.clears.items b j leaf → is_over self.now.order leaf ≡ false) (λ s. IsDueSlot self.now.order self.now.clears.items s.0 s.1 × Clears self.now.clears.items s.0 s.1) }
    {
        next_in(&self.clears, &self.order)
    }

    // A slot waits no more. The turn that was kept for it is kept for the next turn of its block, and the removal is free; so as a model there
    // is one unit of room more, which is paid from that.
    fn recall(&mut self, at: u32, i: u32)
        requires waits { Clears self.old.clears.items at i }
        ensures recalled { (disk : Holds) (faults : ℕ) → Recalled at i (parts self.old disk faults) (record (parts self.new disk faults) { room = self.new.room + 1 }) }
        ensures room { self.new.room ≡ self.old.room }
        ensures making { Making self.new.facts self.new.spare (self.new.room + length self.new.clears.items + 1) self.new.links self.new.queue.room }
        ensures owed { takes_turn self.new.facts self.new.order at ≡ true → (fact_at self.new.facts at).owes ≡ true }
    {
        take_out(&mut self.clears, at, i);
        owe_due(&mut self.facts, &self.order, at);
    }

    /// A slot that waits for a settled leaf is cleared, whether its block is pinned or not, with the unit of room that was kept for it: no memory
    /// is wanted. The waits for its pair end first, and what left with it is queued.
    pub fn clear_due(&mut self, at: u32, i: u32)
        requires waits { Clears self.old.clears.items at i }
        requires due { IsDueSlot self.old.order self.old.clears.items at i }
        ensures { (disk : Holds) (faults : ℕ) → ClearedDue at i (parts self.old disk faults) (parts self.new disk faults) }
    {
        let slot = self.slot_held(at, i).cleared();
        self.end_waits(at, i);
        self.recall(at, i);
        self.change_held(at, i, slot, 0, 1);
    }

    /// No block waits for an entry any more.
    pub fn waits_over(&mut self)
        ensures { (disk : Holds) (faults : ℕ) → parts self.new disk faults ≡ record (parts self.old disk faults) { waits = [] } }
    {
        self.waits.clear();
    }
}
