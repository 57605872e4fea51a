//! Minds at rest over ten blocks.
ghost use Rattle.std.specs.Prelude.{◌≡◌, ◌<◌, ◌≤◌, false, [], IfOk};
ghost use Rattle.fo_image.specs.Format.{KindHolds, SpellsSuper, SuperHolds};
ghost use Rattle.fo_image.specs.Usable.{is_usable};
ghost use Rattle.fo_unlink.specs.Pending.{IsRemoval};
ghost use Rattle.fo_mind.specs.MindParts.{parts};
ghost use Rattle.fo_mind.specs.Parts.{count_of, label_at};
ghost use Rattle.fo_mind.specs.Sound.{Labelled};
ghost use Rattle.fo_closing.specs.Rest.{AtRest};

use fo_base::{BLOCK, Memory};
use fo_buffers::Block;
use fo_image::{Kind, Label, State, Super, write_super};
use fo_labels::Labels;
use fo_mind::Mind;
use fo_unlink::Removal;
use std::alloc::Global;

/// A super block of the first epoch, whose root is block 9.
const FIRST: Super = Super {
    version: 1,
    low: 1,
    high: 1,
    active: 9,
    numbers: 1,
    pending: 0,
    last: None,
};

/// The labels of ten blocks, of which 3 to 9 are data blocks, all free.
fn free_labels(alloc: Global) -> Result<Labels, Memory>
    ensures first { IfOk result (λ r. r.first ≡ 3) }
    ensures count { IfOk result (λ r. count_of r ≡ 10) }
    ensures labelled { IfOk result Labelled }
{
    Labels::new(alloc, 10, 3)
}

/// A block is live, of tag 7 and the first epoch.
fn make_live(labels: &mut Labels, at: u32, kind: Kind)
    requires first { labels.old.first ≡ 3 }
    requires count { count_of labels.old ≡ 10 }
    requires labelled { Labelled labels.old }
    requires kind { KindHolds kind }
    requires block { (3 ≤ at) × (at < 10) }
    ensures first { labels.new.first ≡ 3 }
    ensures count { count_of labels.new ≡ 10 }
    ensures labelled { Labelled labels.new }
    ensures live { is_usable 1 (label_at labels.new at) ≡ false }
{
    let label = Label {
        state: State::Live,
        kind,
        tag: 7,
        epoch: 1,
        closing: u32::MAX,
    };
    labels.restore(at, label);
}

/// Blocks 4, which leads to data, 5, 6 and the root are live.
fn labels(alloc: Global) -> Result<Labels, Memory>
    ensures first { IfOk result (λ r. r.first ≡ 3) }
    ensures count { IfOk result (λ r. count_of r ≡ 10) }
    ensures labelled { IfOk result Labelled }
    ensures live { IfOk result (λ r. is_usable 1 (label_at r 9) ≡ false) }
{
    let mut labels = free_labels(alloc)?;
    make_live(&mut labels, 4, Kind::Data(1));
    make_live(&mut labels, 5, Kind::Data(0));
    make_live(&mut labels, 6, Kind::Data(0));
    make_live(&mut labels, 9, Kind::Root);
    Ok(labels)
}

/// A block that spells a super block.
fn spelled(alloc: Global, one: &Super) -> Result<Block, Memory>
    requires { SuperHolds one.now }
    ensures { IfOk result (SpellsSuper one.now) }
{
    let mut bytes = [0; BLOCK];
    write_super(one, &mut bytes);
    let mut block = Block::new(alloc)?;
    block.fill(&bytes);
    Ok(block)
}

/// A mind over ten blocks, in which nothing is queued.
pub fn small(alloc: Global) -> Result<Mind, Memory>
    ensures rest { IfOk result (λ m. AtRest (parts m [] 0)) }
    ensures count { IfOk result (λ m. count_of (parts m [] 0).region ≡ 10) }
{
    let labels = labels(alloc)?;
    let block = spelled(alloc, &FIRST)?;
    Mind::new(alloc, labels, FIRST, block)
}

/// Makes room for one removal.
fn grow(mind: &mut Mind) -> bool
    requires rest { AtRest (parts mind.old [] 0) }
    requires count { count_of (parts mind.old [] 0).region ≡ 10 }
    ensures rest { AtRest (parts mind.new [] 0) }
    ensures count { count_of (parts mind.new [] 0).region ≡ 10 }
{
    mind.make_room(0, 0, 1).is_ok()
}

/// Queues a removal, for which there is room.
fn push(mind: &mut Mind, r: Removal)
    requires room { 0 < mind.old.room }
    requires removal { IsRemoval r }
    requires rest { AtRest (parts mind.old [] 0) }
    requires count { count_of (parts mind.old [] 0).region ≡ 10 }
    ensures rest { AtRest (parts mind.new [] 0) }
    ensures count { count_of (parts mind.new [] 0).region ≡ 10 }
{
    mind.room -= 1;
    mind.queue.push(r);
}

/// Queues a removal after block 1, and answers whether there was memory for it.
pub fn queue(mind: &mut Mind, at: u32, kind: Kind, whole: bool) -> bool
    requires kind { IsRemoval (record { at = at; kind = kind; whole = whole; epoch = 1; after = 1 }) }
    requires rest { AtRest (parts mind.old [] 0) }
    requires count { count_of (parts mind.old [] 0).region ≡ 10 }
    ensures rest { AtRest (parts mind.new [] 0) }
    ensures count { count_of (parts mind.new [] 0).region ≡ 10 }
{
    if !grow(mind) {
        return false;
    }
    if mind.room == 0 {
        return false;
    }
    let removal = Removal {
        at,
        kind,
        whole,
        epoch: 1,
        after: 1,
    };
    push(mind, removal);
    true
}
