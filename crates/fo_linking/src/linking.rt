//! Blocks that were made come into the tree of memory.
ghost use Rattle.std.specs.Prelude.{◌≡◌, ◌+◌, ◌<◌, ◌≤◌, ℕ, true, false, not, List, length, slice_get, Some};
ghost use Rattle.std.specs.Vec.{vec_len, vec_capacity};
ghost use Rattle.fo_image.specs.declared.types.Pointer.{Pointer as Where};
ghost use Rattle.fo_image.specs.declared.types.Pointer.TheVariants.{Local};
ghost use Rattle.fo_buffers.specs.of_crash.Images.{target};
ghost use Rattle.fo_buffers.specs.of_ports.Blocks.{ReadsSlots, slot_count};
ghost use Rattle.fo_buffers.specs.of_slots.Read.{read};
ghost use Rattle.fo_labels.specs.Region.{Region};
ghost use Rattle.fo_facts.specs.declared.fact.Fact.{Fact as Known};
ghost use Rattle.fo_facts.specs.Known.{fact_at, linked_as, noted};
ghost use Rattle.fo_linking.specs.Joined.{AreGood, IsLinked, IsReached, IsReady, JoinsBelow, LeadsToLinked, is_changed};
ghost use Rattle.fo_linking.specs.Steps.{Grows, IsAble, Looks, Reaches, taken_if};

use fo_buffers::{Buffers, slot_count, slot_of};
use fo_facts::Facts;
use fo_image::{Kind, Pointer};
use fo_labels::Labels;
use fo_order::Order;

// A block takes a turn, where memory has it changed.
fn take_if(order: &mut Order, dirty: bool, at: u32, rank: u32)
    requires flags { at < length order.old.flags }
    requires room { dirty ≡ true → 0 < order.old.room }
    ensures { order.new ≡ taken_if dirty order.old at rank }
{
    if dirty {
        order.change(at, rank);
    }
}

// A block that was made is linked.
fn link_one(order: &mut Order, facts: &mut Facts, dirty: bool, at: u32)
    requires flags { at < length order.old.flags }
    requires facts { at < length facts.old }
    requires room { dirty ≡ true → 0 < order.old.room }
    ensures turns { order.new ≡ taken_if dirty order.old at (fact_at facts.old at).rank }
    ensures items { facts.new ≡ noted facts.old at (linked_as dirty) }
{
    let rank = facts.get(at).rank;
    take_if(order, dirty, at, rank);
    facts.link(at, dirty);
}

// Links a block that was made and is not linked yet, and lists it.
fn link_to(buffers: &Buffers, order: &mut Order, facts: &mut Facts, links: &mut Vec<u32>, at: u32)
    requires { IsAble facts.old order.old (vec_len links.old) (vec_capacity links.old) }
    ensures able { IsAble facts.new order.new (vec_len links.new) (vec_capacity links.new) }
    ensures capacity { vec_capacity links.new ≡ vec_capacity links.old }
    ensures linked { (fact_at facts.new at).linked ≡ true }
    ensures grows { Grows buffers.now facts.old facts.new order.old order.new links.old.items links.new.items }
    ensures only { (region : Region) (old : List Known) (to : Where) → IsReached buffers.now region old to at → Reaches buffers.now region to old facts.old links.old.items → Reaches buffers.now region to old facts.new links.new.items }
{
    if facts.get(at).linked {
        return;
    }
    let dirty = buffers.is_dirty(at);
    link_one(order, facts, dirty, at);
    links.push_reserved(at);
}

// Links all to which the slots of a block lead.
fn link_slots(
    buffers: &Buffers,
    order: &mut Order,
    facts: &mut Facts,
    links: &mut Vec<u32>,
    kind: Kind,
    bytes: &[u8],
)
    requires able { IsAble facts.old order.old (vec_len links.old) (vec_capacity links.old) }
    requires length { length bytes.now ≡ 8192 }
    requires slots { ReadsSlots kind (read kind bytes.now) bytes.now }
    ensures able { IsAble facts.new order.new (vec_len links.new) (vec_capacity links.new) }
    ensures capacity { vec_capacity links.new ≡ vec_capacity links.old }
    ensures linked { (j c : ℕ) → target ((read kind bytes.now).slot j) ≡ Local c → (fact_at facts.new c).linked ≡ true }
    ensures grows { Grows buffers.now facts.old facts.new order.old order.new links.old.items links.new.items }
    ensures only { (region : Region) (old : List Known) (to : Where) → ((j c : ℕ) → target ((read kind bytes.now).slot j) ≡ Local c → IsReached buffers.now region old to c) → Reaches buffers.now region to old facts.old links.old.items → Reaches buffers.now region to old facts.new links.new.items }
{
    for j in 0..slot_count(kind) {
        let to = slot_of(kind, bytes, j).target();
        link_pointer(buffers, order, facts, links, to);
    }
}

// Links all to which a held block leads.
fn link_below(
    buffers: &Buffers,
    labels: &Labels,
    order: &mut Order,
    facts: &mut Facts,
    links: &mut Vec<u32>,
    at: u32,
)
    requires able { IsAble facts.old order.old (vec_len links.old) (vec_capacity links.old) }
    requires good { AreGood labels.now buffers.now }
    ensures able { IsAble facts.new order.new (vec_len links.new) (vec_capacity links.new) }
    ensures capacity { vec_capacity links.new ≡ vec_capacity links.old }
    ensures linked { LeadsToLinked buffers.now labels.now facts.new at }
    ensures grows { Grows buffers.now facts.old facts.new order.old order.new links.old.items links.new.items }
    ensures only { (old : List Known) (to : Where) → IsReached buffers.now labels.now old to at → (fact_at old at).linked ≡ false → Reaches buffers.now labels.now to old facts.old links.old.items → Reaches buffers.now labels.now to old facts.new links.new.items }
{
    match buffers.bytes(at) {
        Some(bytes) => link_slots(buffers, order, facts, links, labels.label(at).kind, bytes),
        None => {}
    }
}

// The block at a place of the list.
fn listed(links: &Vec<u32>, place: usize) -> u32
    requires { place < length links.now.items }
    ensures { slice_get links.now.items place ≡ Some result }
{
    links[place]
}

// Links all that hangs from the blocks in the list by blocks that were made.
fn link_listed(
    buffers: &Buffers,
    labels: &Labels,
    order: &mut Order,
    facts: &mut Facts,
    links: &mut Vec<u32>,
)
    requires able { IsAble facts.old order.old (vec_len links.old) (vec_capacity links.old) }
    requires good { AreGood labels.now buffers.now }
    ensures able { IsAble facts.new order.new (vec_len links.new) (vec_capacity links.new) }
    ensures capacity { vec_capacity links.new ≡ vec_capacity links.old }
    ensures looked { (old : List Known) → Looks buffers.now labels.now old facts.old links.old.items 0 → (b : ℕ) → IsLinked old facts.new b → LeadsToLinked buffers.now labels.now facts.new b }
    ensures grows { Grows buffers.now facts.old facts.new order.old order.new links.old.items links.new.items }
    ensures only { (old : List Known) (to : Where) → Reaches buffers.now labels.now to old facts.old links.old.items → Reaches buffers.now labels.now to old facts.new links.new.items }
{
    let mut done = 0;
    while done < links.len() {
        let at = listed(links, done);
        link_below(buffers, labels, order, facts, links, at);
        done += 1;
    }
}

// Links the block to which a slot leads, if to one.
fn link_pointer(
    buffers: &Buffers,
    order: &mut Order,
    facts: &mut Facts,
    links: &mut Vec<u32>,
    to: Pointer,
)
    requires able { IsAble facts.old order.old (vec_len links.old) (vec_capacity links.old) }
    ensures able { IsAble facts.new order.new (vec_len links.new) (vec_capacity links.new) }
    ensures capacity { vec_capacity links.new ≡ vec_capacity links.old }
    ensures linked { (b : ℕ) → to ≡ Local b → (fact_at facts.new b).linked ≡ true }
    ensures grows { Grows buffers.now facts.old facts.new order.old order.new links.old.items links.new.items }
    ensures only { (region : Region) (old : List Known) (from : Where) → ((c : ℕ) → to ≡ Local c → IsReached buffers.now region old from c) → Reaches buffers.now region from old facts.old links.old.items → Reaches buffers.now region from old facts.new links.new.items }
{
    if let Pointer::Local(at) = to {
        link_to(buffers, order, facts, links, at);
    }
}

// Links a block to which a slot in the tree leads, and all that hangs from it by blocks that were made. Nothing is listed after it.
pub(crate) fn link_tree(
    buffers: &Buffers,
    labels: &Labels,
    order: &mut Order,
    facts: &mut Facts,
    links: &mut Vec<u32>,
    to: Pointer,
)
    requires none { vec_len links.old ≡ 0 }
    requires good { AreGood labels.now buffers.now }
    requires ready { IsReady facts.old order.old (vec_capacity links.old) }
    ensures len { vec_len links.new ≡ 0 }
    ensures capacity { vec_capacity links.new ≡ vec_capacity links.old }
    ensures joins { JoinsBelow buffers.now labels.now to facts.old facts.new order.old order.new }
{
    link_pointer(buffers, order, facts, links, to);
    link_listed(buffers, labels, order, facts, links);
    links.clear();
}
