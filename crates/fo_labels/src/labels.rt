//! The labels of the data blocks.
ghost use Rattle.std.specs.Prelude.{◌≡◌, ◌+◌, ◌-◌, ◌^◌, ◌<◌, ◌≤◌, length, count_by, slice_set, replicate, ◌↔◌, IfOk, IfSome, IsNone, MatchOption, if◌then◌else◌};
ghost use Rattle.std.specs.List.{position};
ghost use Rattle.fo_image.specs.declared.types.State.TheVariants.{Live};
ghost use Rattle.fo_image.specs.Format.{LabelHolds};
ghost use Rattle.fo_image.specs.Usable.{free_label, live_label, is_usable};
ghost use Rattle.fo_labels.specs.Region.{IsDataBlock, IsUsableBlock, closed_label, label_of, relabeled, least_usable, usable_count};
ghost use Rattle.fo_labels.specs.Spelled.{label_at};

use crate::groups::{GROUP, groups_for, least_floor, part};
use crate::index::Minima;
use fo_base::Memory;
use fo_image::{Kind, Label, State, is_usable};
use std::alloc::Global;
use std::marker::Model;

const FREE: Label = Label {
    state: State::Free,
    kind: Kind::Data(0),
    tag: 0,
    epoch: 0,
    closing: 0,
};

/// The labels of the data blocks, those from the first data block on. A block is usable where its label is free, or
/// closed at an epoch that is at most the settled low epoch, or closed in the epoch in which it was given out: then no
/// snapshot that is kept holds it (the Fossil paper).
#[derive(Drop)]
pub struct Labels {
    first: u32,
    labels: Vec<Label>,
    // of each group of labels, from which settled low epoch on one of its blocks is usable
    floors: Minima,
    low: u32,
    usable: u32,
}

impl Model for Labels {
    ghost use Rattle.fo_labels.specs.Region.{Region};

    ghost Value = { Region };

    ghost use Rattle.fo_labels.specs.Indexed.{IsIndexed};

    ghost view = { λ a. record { first = a.first; labels = a.labels.items } };

    ghost invariant = { IsIndexed };
}

impl Labels {
    /// The labels of the blocks from address `first` to `count - 1`, all of them free.
    pub fn new(alloc: Global, count: u32, first: u32) -> Result<Labels, Memory>
        ensures { IfOk result (λ r. r ≡ record { first = first; labels = replicate (count - first) free_label }) }
    {
        let len = count.saturating_sub(first);
        let labels = vec![in alloc; FREE; len as usize]?;
        let floors = Minima::new(alloc, groups_for(len))?;
        Ok(Labels {
            first,
            labels,
            floors,
            low: 0,
            usable: len,
        })
    }

    /// The address of the first data block.
    pub fn first(&self) -> u32
        ensures { result ≡ self.now.first }
    {
        self.first
    }

    /// How many data blocks there are.
    pub fn len(&self) -> u32
        ensures { result ≡ length self.now.labels }
    {
        self.labels.len() as u32
    }

    /// Gives out the usable block of the least address, and None exactly where no block is usable. Its label is live
    /// from then on, with this kind, tag and epoch.
    pub fn alloc(&mut self, kind: Kind, tag: u32, epoch: u32, settled_low: u32) -> Option<u32>
        requires { LabelHolds (live_label kind tag epoch) }
        ensures least { result ≡ least_usable settled_low self.old }
        ensures none { IsNone result ↔ (usable_count settled_low self.old ≡ 0) }
        ensures some { IfSome result (IsUsableBlock settled_low self.old) }
        ensures labels { MatchOption result (self.new ≡ self.old)
            (λ at. self.new ≡ relabeled self.old at (live_label kind tag epoch)) }
        ensures usable { IfSome result (λ at. usable_count settled_low self.new + 1 ≡ usable_count settled_low self.old) }
    {
        let first = self.first;
        let Some(place) = self.first_usable(settled_low) else {
            return None;
        };
        let label = Label {
            state: State::Live,
            kind,
            tag,
            epoch,
            closing: u32::MAX,
        };
        self.put(place, label);
        Some(first + place as u32)
    }

    /// Closes a live block at an epoch.
    pub fn close(&mut self, at: u32, epoch: u32)
        requires block { IsDataBlock self.old at }
        requires live { (label_of self.old at).state ≡ Live }
        requires made { (label_of self.old at).epoch ≤ epoch }
        ensures { self.new ≡ relabeled self.old at (closed_label (label_of self.old at) epoch) }
    {
        let place = (at - self.first) as usize;
        let mut label = self.labels[place];
        label.state = State::Closed;
        label.closing = epoch;
        self.put(place, label);
    }

    /// Gives a block the label that was read from the device.
    pub fn restore(&mut self, at: u32, label: Label)
        requires { IsDataBlock self.old at }
        ensures { self.new ≡ relabeled self.old at label }
    {
        let place = (at - self.first) as usize;
        self.put(place, label);
    }

    /// How many blocks are usable. This is at once the answer for the settled low epoch that `follow` was told last,
    /// or 0 at first; for another epoch the labels are counted.
    pub fn usable(&self, settled_low: u32) -> u32
        ensures { result ≡ usable_count settled_low self.now }
    {
        if settled_low == self.low {
            return self.usable;
        }
        count_usable(&self.labels, settled_low)
    }

    /// Keeps the number of usable blocks for this settled low epoch from now on. The labels are counted once.
    pub fn follow(&mut self, settled_low: u32)
        ensures { self.new ≡ self.old }
    {
        self.usable = count_usable(&self.labels, settled_low);
        self.low = settled_low;
    }

    /// The label of a data block.
    pub fn label(&self, at: u32) -> Label
        requires { IsDataBlock self.now at }
        ensures { result ≡ label_of self.now at }
    {
        self.labels[(at - self.first) as usize]
    }

    // The label of an address; what is no data block counts as free.
    pub(crate) fn label_or_free(&self, at: u64) -> Label
        ensures { result ≡ label_at self.now at }
    {
        let first = u64::from(self.first);
        if at < first {
            return FREE;
        }
        match self.labels.get((at - first) as usize) {
            Some(label) => *label,
            None => FREE,
        }
    }

    // The first place with a usable label.
    fn first_usable(&self, low: u32) -> Option<usize>
        ensures { result ≡ position (is_usable low) self.now.labels }
    {
        let group = self.floors.first_within(low)?;
        let place = place_within(part(&self.labels, group), low)?;
        Some(GROUP * group + place)
    }

    // The label at a place of the list, which starts at the first data block.
    fn put(&mut self, place: usize, label: Label)
        requires { place < length self.old.labels }
        ensures { self.new ≡ record { first = self.old.first; labels = slice_set self.old.labels place label } }
    {
        let was = one_if_usable(&self.labels[place], self.low);
        let is = one_if_usable(&label, self.low);
        self.usable = self.usable - was + is;
        self.labels[place] = label;
        let group = place / GROUP;
        let least = least_floor(part(&self.labels, group));
        self.floors.set(group, least);
    }
}

// The first place with a usable label.
fn place_within(labels: &[Label], low: u32) -> Option<usize>
    ensures { result ≡ position (is_usable low) labels.now }
{
    labels.iter().position(|label| is_usable(label, low))
}

fn one_if_usable(label: &Label, low: u32) -> u32
    ensures { result ≡ (if is_usable low label.now then 1 else 0) }
{
    if is_usable(label, low) { 1 } else { 0 }
}

fn count_usable(labels: &[Label], low: u32) -> u32
    requires { length labels.now < 2 ^ 32 }
    ensures { result ≡ count_by (is_usable low) labels.now }
{
    labels.iter().filter(|label| is_usable(label, low)).count() as u32
}
