//! Slots are put.
ghost use Rattle.std.specs.Prelude.{◌≡◌, ◌≢◌, ◌+◌, ◌-◌, ◌*◌, ◌<◌, ◌≤◌, ℕ, [], true, false, length};
ghost use Rattle.fo_disk.specs.Disk.{Content as Holds};
ghost use Rattle.fo_image.specs.declared.types.Pointer.TheVariants.{Local};
ghost use Rattle.fo_image.specs.Format.{KindHolds};
ghost use Rattle.fo_crash.specs.Images.{target};
ghost use Rattle.fo_ports.specs.Blocks.{SlotFits, ends, slot_count};
ghost use Rattle.fo_facts.specs.Known.{fact_at};
ghost use Rattle.fo_rooms.specs.of_linking.Joined.{AreGood, IsReady, Joins, JoinsBelow};
ghost use Rattle.fo_bring.specs.Blocks.{IsData};
ghost use Rattle.fo_waits.specs.Listed.{Clears, Listed, is_active};
ghost use Rattle.fo_mind.specs.MindParts.{parts};
ghost use Rattle.fo_mind.specs.Changes.{takes_turn};
ghost use Rattle.fo_mind.specs.Parts.{IsHeld, IsPinned, label_at, memory};
ghost use Rattle.fo_mind.specs.Slotted.{Follows, Hung, Slotted};
ghost use Rattle.fo_mind.specs.Sound.{Making};

use crate::mind::Mind;
use crate::news::copied;
use fo_buffers::Buffers;
use fo_crash::Slot;
use fo_facts::Facts;
use fo_image::Pointer;
use fo_labels::Labels;
use fo_order::Order;
use fo_raising::{is_raised, note_put};
use fo_rooms::{Put, Worklist};
use fo_slots::put_slot_into;
use fo_taking::take_put;

// Links what hangs from a slot of a block, where that is in the tree.
fn link_put(
    links: &mut Worklist,
    buffers: &Buffers,
    labels: &Labels,
    order: &mut Order,
    facts: &mut Facts,
    at: u32,
    to: Pointer,
)
    requires good { AreGood labels.now buffers.now }
    requires ready { IsReady facts.old order.old links.old }
    ensures linked { (fact_at facts.old at).linked ≡ true → JoinsBelow buffers.now labels.now to facts.old facts.new order.old order.new }
    ensures stays { (fact_at facts.old at).linked ≡ false → (facts.new ≡ facts.old) × (order.new ≡ order.old) }
    ensures joins { Joins buffers.now facts.old facts.new order.old order.new }
    ensures same { links.new ≡ links.old }
{
    let fact = facts.get(at);
    if !fact.linked {
        return;
    }
    links.link(buffers, labels, order, facts, to);
}

// How many removals may be queued: what a put costs, paid now or kept for it before, and one for each block that was linked.
fn budget(paid: u32, kept: u32, before: usize, after: usize, room: u32) -> u32
    requires fewer { after ≤ before }
    requires room { paid + kept + (before - after) ≤ room }
    ensures { result ≡ paid + kept + (before - after) }
{
    let _room = room;
    paid + kept + (before - after) as u32
}

impl Mind {
    // A slot of a block leads there now.
    fn hang(&mut self, at: u32, to: Pointer, raised: bool)
        requires at { IsData self.old.first self.old.count at }
        requires to { (b : ℕ) → to ≡ Local b → IsData self.old.first self.old.count b × (b ≢ at) }
        ensures is { (disk : Holds) (faults : ℕ) → Hung at to raised (parts self.old disk faults) (parts self.new disk faults) }
        ensures queue { self.new.queue ≡ self.old.queue }
    {
        note_put(&mut self.facts, at, to, raised);
    }

    // Links what comes into the tree with a slot that was put, and queues what leaves. So much of the price is paid from the room; the rest
    // was kept for it, beside that room.
    fn follow(&mut self, put: &Put, paid: u32, kept: u32)
        requires kind { KindHolds put.now.kind }
        requires old { SlotFits put.now.kind put.now.i put.now.old }
        requires new { SlotFits put.now.kind put.now.i put.now.new }
        requires ends { ends (target put.now.old) (target put.now.new) ≤ paid + kept }
        requires room { paid ≤ self.old.room }
        requires making { Making self.old.facts self.old.spare (self.old.room + length self.old.clears.items + kept) self.old.links self.old.queue.room }
        ensures { (disk : Holds) (faults : ℕ) → Follows put.now (paid + kept) (record (parts self.old disk faults) { room = self.old.room + kept }) (parts self.new disk faults) }
    {
        let to = put.new.target();
        let before = self.facts.made();
        link_put(
            &mut self.links,
            &self.buffers,
            &self.labels,
            &mut self.order,
            &mut self.facts,
            put.at,
            to,
        );
        let after = self.facts.made();
        let most = budget(paid, kept, before, after, self.queue.room());
        take_put(
            &mut self.walk,
            &mut self.queue,
            &self.buffers,
            &self.labels,
            self.one.high,
            put,
            most,
        );
        self.room -= paid;
    }

    /// A slot of a pinned block changes, at this price in room.
    pub fn change_slot(&mut self, at: u32, i: u32, slot: Slot, price: u32)
        requires pinned { IsPinned self.old.buffers at }
        requires current { (label_at self.old.labels at).epoch ≡ self.old.one.high }
        requires spelled { (i < slot_count (label_at self.old.labels at).kind) × SlotFits (label_at self.old.labels at).kind i slot }
        requires settled { Clears self.old.clears.items at i → ⊥ }
        requires used { (a k : ℕ) → Listed self.old.waits.items a at k → i ≡ 2 * k → is_active slot ≡ true }
        requires leads { (b : ℕ) → target slot ≡ Local b → IsData self.old.first self.old.count b × (b ≢ at) }
        requires ends { ends (target ((memory (parts self.old [] 0) at).slot i)) (target slot) ≤ price }
        requires room { price ≤ self.old.room }
        ensures { (disk : Holds) (faults : ℕ) → Slotted at i price slot (parts self.old disk faults) (parts self.new disk faults) }
    {
        self.change_held(at, i, slot, price, 0);
    }

    // A slot of a held block changes, at a price in room, part of which was kept for it beside the room. Where the block takes a turn, room was
    // kept for that.
    pub(crate) fn change_held(&mut self, at: u32, i: u32, slot: Slot, paid: u32, kept: u32)
        requires held { IsHeld self.old.buffers at }
        requires current { (label_at self.old.labels at).epoch ≡ self.old.one.high }
        requires owed { takes_turn self.old.facts self.old.order at ≡ true → (fact_at self.old.facts at).owes ≡ true }
        requires spelled { (i < slot_count (label_at self.old.labels at).kind) × SlotFits (label_at self.old.labels at).kind i slot }
        requires used { (a k : ℕ) → Listed self.old.waits.items a at k → i ≡ 2 * k → is_active slot ≡ true }
        requires leads { (b : ℕ) → target slot ≡ Local b → IsData self.old.first self.old.count b × (b ≢ at) }
        requires ends { ends (target ((memory (parts self.old [] 0) at).slot i)) (target slot) ≤ paid + kept }
        requires room { paid ≤ self.old.room }
        requires making { Making self.old.facts self.old.spare (self.old.room + length self.old.clears.items + kept) self.old.links self.old.queue.room }
        ensures { (disk : Holds) (faults : ℕ) → Slotted at i (paid + kept) slot (record (parts self.old disk faults) { room = self.old.room + kept }) (parts self.new disk faults) }
    {
        let label = self.label(at);
        let old = self.slot_held(at, i);
        let fact = self.facts.get(at);
        let mut block = copied(&self.buffers, at);
        let raised = is_raised(&fact, label.kind, i, &block);
        put_slot_into(label.kind, i as usize, &slot, &mut block);
        self.refill(at, &block);
        let to = slot.target();
        self.hang(at, to, raised);
        let put = Put {
            at,
            kind: label.kind,
            i,
            old,
            new: slot,
        };
        self.follow(&put, paid, kept);
    }
}
