//! Two blocks at one place, and what they say of what leaves.
ghost use Rattle.std.specs.Prelude.{◌≡◌, ℕ, List, ◌<◌, ◌≤◌, IfSome, Some, None};
ghost use Rattle.fo_image.specs.Format.{KindHolds};
ghost use Rattle.fo_slots.specs.of_crash.Images.{kind_below, kind_of_top};
ghost use Rattle.fo_slots.specs.of_ports.Blocks.{slot_count, SlotFits};
ghost use Rattle.fo_unlink.specs.Closing.{level_of};
ghost use Rattle.fo_slots.specs.Read.{read};
ghost use Rattle.fo_takeout.specs.Meeting.{led_to, meeting, same_sort, change, items, item_of, item, IsBelow, IsPair, IsMet, IsContent, AreGiven};
ghost use Rattle.fo_takeout.specs.declared.pair.Change.TheVariants.{Copied, Gained, Lost};

use fo_image::{Kind, Pointer};
use fo_slots::{Slot, slot_count, slot_of};

/// A block that hangs from a slot, and what it holds there.
#[derive(Clone, Copy, Debug, PartialEq, Eq)]
pub struct Below {
    pub at: u32,
    pub kind: Kind,
}

/// A block that hung at a place, and one that came there.
#[derive(Clone, Copy, Debug, PartialEq, Eq)]
pub struct Pair {
    pub old: Below,
    pub new: Below,
}

/// How a block came to the place of another.
#[derive(Clone, Copy, Debug, PartialEq, Eq)]
pub enum Change {
    /// It is a copy: both are looked at, slot by slot.
    Copied,
    /// The source grew: the block that came is looked at.
    Gained,
    /// The source lost levels: the block that hung there is looked at.
    Lost,
    /// They have nothing in common, and neither is looked at.
    Apart,
}

/// What is found at two slots, or of a block.
#[derive(Clone, Copy, Debug, PartialEq, Eq)]
pub enum Met {
    /// Nothing leaves.
    Nothing,
    /// This block leaves alone.
    Alone(Below),
    /// This block leaves with all that is below it.
    Whole(Below),
    /// These two are to be looked at.
    Follows(Pair),
}

fn kind_of_top(slot: &Slot) -> Kind
    ensures { result ≡ kind_of_top slot.now }
{
    match slot {
        Slot::Entry(entry) if entry.dir => Kind::Dir(entry.depth),
        Slot::Entry(entry) => Kind::Data(entry.depth),
        _ => Kind::Root,
    }
}

fn kind_below(kind: Kind, slot: &Slot) -> Kind
    ensures { result ≡ kind_below kind slot.now }
{
    match kind {
        Kind::Data(0) => Kind::Data(0),
        Kind::Data(level) => Kind::Data(level - 1),
        Kind::Dir(0) | Kind::Root => kind_of_top(slot),
        Kind::Dir(level) => Kind::Dir(level - 1),
    }
}

/// The block to which a slot of a block of this kind leads.
pub(crate) fn led_to(kind: Kind, slot: &Slot) -> Option<Below>
    ensures is { result ≡ led_to kind slot.now }
    ensures level { (i : ℕ) → KindHolds kind → SlotFits kind i slot.now → IfSome result IsBelow }
{
    match slot.target() {
        Pointer::Local(at) => Some(Below {
            at,
            kind: kind_below(kind, slot),
        }),
        _ => None,
    }
}

/// What is found where a slot led to the one and leads to the other.
pub(crate) fn meeting(old: Option<Below>, new: Option<Below>) -> Met
    requires old { IfSome old IsBelow }
    requires new { IfSome new IsBelow }
    ensures is { result ≡ meeting old new }
    ensures holds { IsMet result }
{
    match (old, new) {
        (None, _) => Met::Nothing,
        (Some(x), None) => Met::Whole(x),
        (Some(x), Some(y)) if x.at == y.at => Met::Nothing,
        (Some(x), Some(y)) => Met::Follows(Pair { old: x, new: y }),
    }
}

fn level_of(kind: Kind) -> u8
    ensures { result ≡ level_of kind }
{
    match kind {
        Kind::Data(level) | Kind::Dir(level) => level,
        Kind::Root => 0,
    }
}

fn same_sort(old: Kind, new: Kind) -> bool
    ensures { result ≡ same_sort old new }
{
    match (old, new) {
        (Kind::Data(_), Kind::Data(_)) | (Kind::Dir(_), Kind::Dir(_)) => true,
        _ => false,
    }
}

impl Pair {
    /// How the new block came to the place of the old one: which bytes a step asks for.
    pub fn change(&self) -> Change
        ensures { result ≡ change self.now }
    {
        let old = level_of(self.old.kind);
        let new = level_of(self.new.kind);
        if old < new {
            return Change::Gained;
        }
        if new < old {
            return Change::Lost;
        }
        if same_sort(self.old.kind, self.new.kind) {
            Change::Copied
        } else {
            Change::Apart
        }
    }

    /// How many items the pair has.
    pub(crate) fn items(&self) -> u16
        ensures is { result ≡ items self.now }
        ensures most { result ≤ 410 }
    {
        match self.change() {
            Change::Copied | Change::Lost => slot_count(self.old.kind) as u16 + 1,
            Change::Gained | Change::Apart => 1,
        }
    }

    /// Item `n` of the pair.
    pub(crate) fn item(&self, n: u16, old: &[u8], new: &[u8]) -> Met
        requires pair { IsPair self.now }
        requires within { n < items self.now }
        requires given { AreGiven (change self.now) self.now old.now new.now }
        ensures is { result ≡ item self.now (read self.now.old.kind old.now) (read self.now.new.kind new.now) n }
        ensures holds { IsMet result }
    {
        match self.change() {
            Change::Copied => self.copied_item(n, old, new),
            Change::Lost => self.lost_item(n, old),
            Change::Gained => self.gained_item(new),
            Change::Apart => Met::Whole(self.old),
        }
    }

    fn copied_item(&self, n: u16, old: &[u8], new: &[u8]) -> Met
        requires pair { IsPair self.now }
        requires change { change self.now ≡ Copied }
        requires within { n < items self.now }
        requires old { IsContent self.now.old old.now }
        requires new { IsContent self.now.new new.now }
        ensures is { result ≡ item_of Copied self.now (read self.now.old.kind old.now) (read self.now.new.kind new.now) n }
        ensures holds { IsMet result }
    {
        if n == 0 {
            return Met::Alone(self.old);
        }
        let i = n as usize - 1;
        meeting(self.old.slot_below(old, i), self.new.slot_below(new, i))
    }

    fn lost_item(&self, n: u16, old: &[u8]) -> Met
        requires pair { IsPair self.now }
        requires change { change self.now ≡ Lost }
        requires within { n < items self.now }
        requires old { IsContent self.now.old old.now }
        ensures is { (bytes : List ℕ) → result ≡ item_of Lost self.now (read self.now.old.kind old.now) (read self.now.new.kind bytes) n }
        ensures holds { IsMet result }
    {
        if n == 0 {
            return Met::Alone(self.old);
        }
        let new = if n == 1 { Some(self.new) } else { None };
        meeting(self.old.slot_below(old, n as usize - 1), new)
    }

    fn gained_item(&self, new: &[u8]) -> Met
        requires pair { IsPair self.now }
        requires change { change self.now ≡ Gained }
        requires new { IsContent self.now.new new.now }
        ensures is { (bytes : List ℕ) (n : ℕ) → result ≡ item_of Gained self.now (read self.now.old.kind bytes) (read self.now.new.kind new.now) n }
        ensures holds { IsMet result }
    {
        meeting(Some(self.old), self.new.slot_below(new, 0))
    }
}

impl Below {
    /// The block to which slot `i` of this one leads.
    fn slot_below(&self, bytes: &[u8], i: usize) -> Option<Below>
        requires level { IsBelow self.now }
        requires slot { i < slot_count self.now.kind }
        requires content { IsContent self.now bytes.now }
        ensures is { result ≡ led_to self.now.kind ((read self.now.kind bytes.now).slot i) }
        ensures level { IfSome result IsBelow }
    {
        led_to(self.kind, &slot_of(self.kind, bytes, i))
    }
}
