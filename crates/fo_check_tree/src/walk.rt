//! What a walk through a tree has to do, and what it has seen.
ghost use Rattle.std.specs.Prelude.{◌≡◌, ◌<◌, ◌≤◌};
ghost use Rattle.fo_sound.specs.Image.{is_zero};
ghost use Rattle.fo_check_tree.specs.Lower.{lower, level};
ghost use Rattle.fo_check_tree.specs.Notes.{NotesLeaf};
ghost use Rattle.fo_check_tree.specs.Slots.{unless, top_step};
ghost use Rattle.fo_check_tree.specs.declared.walk.Holds.TheVariants.{Records};

use crate::broken::{Broken, lower};
use fo_check_labels::Labels;
use fo_check_names::Named;
use fo_image::{Entry, Kind, Label, Pointer, is_zero};

/// The block that holds a pointer or an entry, and its label.
#[derive(Clone, Copy)]
pub(crate) struct Holder {
    pub(crate) block: u32,
    pub(crate) label: Label,
}

/// What the leaves of a source hold.
#[derive(Clone, Copy, PartialEq, Eq)]
pub(crate) enum Holds {
    Bytes,
    /// Records: those of the leaves within the size are those of the directory.
    Records,
    Entries,
}

/// A pointer to be followed: to a block of this kind and tag, the `index`-th at its level of its source.
#[derive(Clone, Copy)]
pub(crate) struct Step {
    pub(crate) pointer: Pointer,
    pub(crate) kind: Kind,
    pub(crate) tag: u32,
    pub(crate) index: u64,
    pub(crate) size: u64,
    pub(crate) holds: Holds,
    pub(crate) holder: Holder,
}

impl Step {
    /// To the top of the source of an entry.
    pub(crate) fn top(entry: &Entry, holds: Holds, holder: Holder) -> Step
        ensures { result ≡ top_step entry.now holds holder }
    {
        let kind = if entry.dir {
            Kind::Dir(entry.depth)
        } else {
            Kind::Data(entry.depth)
        };
        Step {
            pointer: entry.top,
            kind,
            tag: entry.tag,
            index: 0,
            size: entry.size,
            holds,
            holder,
        }
    }

    /// To the top of a source of records of which none is listed.
    pub(crate) fn unlisted(entry: &Entry, holder: Holder) -> Step
        ensures { result ≡ record (top_step entry.now Records holder) { size = 0 } }
    {
        let mut step = Step::top(entry, Holds::Records, holder);
        step.size = 0;
        step
    }
}

/// A source of entries to be walked, with the records beside it where the two are a directory.
#[derive(Clone, Copy)]
pub(crate) struct Folder {
    pub(crate) entries: Entry,
    pub(crate) records: Option<Entry>,
    pub(crate) holder: Holder,
    /// How many sources of entries are above it.
    pub(crate) depth: u32,
    /// Whether names lead to it.
    pub(crate) named: bool,
}

/// A walk through one tree.
#[derive(Drop)]
pub(crate) struct Walk {
    pub(crate) blocks: u32,
    /// The epoch of the tree.
    pub(crate) epoch: u32,
    /// Whether it is the active tree.
    pub(crate) active: bool,
    pub(crate) labels: Labels,
    pub(crate) noted: Option<Broken>,
    pub(crate) steps: Vec<Step>,
    pub(crate) folders: Vec<Folder>,
    /// The records of the directory in course.
    pub(crate) named: Vec<Named>,
}

impl Walk {
    pub(crate) fn note(&mut self, rule: u8, block: u32)
        ensures noted { self.new.noted ≡ lower self.old.noted rule block }
        ensures level { level self.new.noted ≤ level self.old.noted }
        ensures at { level self.new.noted ≤ rule }
        ensures same { self.new ≡ record self.old { noted = self.new.noted } }
        ensures blocks { self.new.blocks ≡ self.old.blocks }
        ensures tree { (self.new.epoch ≡ self.old.epoch) × (self.new.active ≡ self.old.active) }
        ensures labels { self.new.labels ≡ self.old.labels }
        ensures steps { self.new.steps.items ≡ self.old.steps.items }
        ensures folders { self.new.folders.items ≡ self.old.folders.items }
        ensures named { self.new.named.items ≡ self.old.named.items }
    {
        self.noted = lower(self.noted, rule, block);
    }

    /// Notes a rule that is broken at this leaf, if any.
    pub(crate) fn note_leaf(&mut self, rule: u8, leaf: Option<u32>)
        ensures noted { NotesLeaf rule leaf self.old.noted self.new.noted }
        ensures level { level self.new.noted ≤ level self.old.noted }
        ensures blocks { self.new.blocks ≡ self.old.blocks }
        ensures tree { (self.new.epoch ≡ self.old.epoch) × (self.new.active ≡ self.old.active) }
        ensures labels { self.new.labels ≡ self.old.labels }
        ensures steps { self.new.steps.items ≡ self.old.steps.items }
        ensures folders { self.new.folders.items ≡ self.old.folders.items }
        ensures named { self.new.named.items ≡ self.old.named.items }
    {
        if let Some(block) = leaf {
            self.note(rule, block);
        }
    }

    /// A source of entries has at most 64 others above it.
    pub(crate) fn note_depth(&mut self, block: u32, depth: u32)
        ensures deep { 64 < depth → self.new.noted ≡ lower self.old.noted 8 block }
        ensures quiet { depth ≤ 64 → self.new.noted ≡ self.old.noted }
        ensures level { level self.new.noted ≤ level self.old.noted }
        ensures blocks { self.new.blocks ≡ self.old.blocks }
        ensures tree { (self.new.epoch ≡ self.old.epoch) × (self.new.active ≡ self.old.active) }
        ensures labels { self.new.labels ≡ self.old.labels }
        ensures steps { self.new.steps.items ≡ self.old.steps.items }
        ensures folders { self.new.folders.items ≡ self.old.folders.items }
        ensures named { self.new.named.items ≡ self.old.named.items }
    {
        if 64 < depth {
            self.note(8, block);
        }
    }

    /// The bytes behind the slots of a block have to be zeros.
    pub(crate) fn note_rest(&mut self, block: u32, rest: &[u8])
        ensures noted { self.new.noted ≡ unless (is_zero rest.now) 5 block self.old.noted }
        ensures level { level self.new.noted ≤ level self.old.noted }
        ensures blocks { self.new.blocks ≡ self.old.blocks }
        ensures tree { (self.new.epoch ≡ self.old.epoch) × (self.new.active ≡ self.old.active) }
        ensures labels { self.new.labels ≡ self.old.labels }
        ensures steps { self.new.steps.items ≡ self.old.steps.items }
        ensures folders { self.new.folders.items ≡ self.old.folders.items }
        ensures named { self.new.named.items ≡ self.old.named.items }
    {
        if !is_zero(rest) {
            self.note(5, block);
        }
    }
}
