//! A block in memory.
ghost use Rattle.std.specs.Prelude.{◌≡◌, ◌≢◌, ◌⊎◌, ◌↔◌, ◌+◌, ◌*◌, ◌<◌, ◌≤◌, ◌^◌, ℕ, IsTrue, false, true, length, slice_index_or, slice_set, MatchOption};
ghost use Rattle.fo_crash.specs.Images.{target, depth_of, SameContent};
ghost use Rattle.fo_image.specs.declared.types.Pointer.TheVariants.{Nil, Local};
ghost use Rattle.fo_image.specs.declared.types.Kind.TheVariants.{Dir, Root};
ghost use Rattle.fo_crash.specs.declared.slot.Slot.TheVariants.{Pointer as To, Prev};
ghost use Rattle.fo_ports.specs.Blocks.{put_at, no_entry, blank, blank_slot, zero_bytes, IsInner, ends};
ghost use Rattle.fo_ports_plain.specs.Plain.{content_of, slot_of, index_below, index_in, nowhere};
ghost use Rattle.fo_ports_plain.specs.Moves.{IsFree, elsewhere};

use crate::home::Home;
use fo_base::{BLOCK, POINTERS};
use fo_crash::{Place, Slot};
use fo_image::{Entry, Kind, Pointer};

/// A block with its place and the epoch in which it was given out. `apart`: it was put into no slot yet, and is to come in the place
/// of block `origin`, if that is not 0. `source` is the number of the source that it is of, which is the address of the block that was
/// its first top; `home` is where the source of this block's address hangs. `taken`: a slot that led to it was taken out. `retired`: a
/// root block that is to be closed alone. `kept`: it is the root of the active tree or of a snapshot.
#[derive(Clone, Copy)]
pub struct PlainBlock {
    pub(crate) place: Place,
    pub(crate) epoch: u32,
    pub(crate) apart: bool,
    pub(crate) origin: u32,
    pub(crate) source: u32,
    pub(crate) home: Home,
    pub(crate) taken: bool,
    pub(crate) retired: bool,
    pub(crate) kept: bool,
    pub(crate) bytes: [u8; BLOCK],
    pub(crate) slots: [Slot; POINTERS],
}

impl PlainBlock {
    /// The block with an index, put into a slot, of this source.
    pub(crate) fn joined(self, index: u64, source: u32) -> PlainBlock
        ensures { result ≡ record self { place = record self.place { index = index }; apart = false; origin = 0; source = source } }
    {
        let mut block = self;
        block.place.index = index;
        block.apart = false;
        block.origin = 0;
        block.source = source;
        block
    }

    /// The block with another slot.
    pub(crate) fn with_slot(self, i: u32, slot: Slot) -> PlainBlock
        requires { i < 409 }
        ensures block { result ≡ record self { slots = slice_set self.slots i slot } }
        ensures here { slot_of result i ≡ slot }
    {
        let mut block = self;
        block.slots[i as usize] = slot;
        block
    }

    /// The block of this source, to come in the place of this block.
    pub(crate) fn of_source(self, source: u32, origin: u32) -> PlainBlock
        ensures { result ≡ record self { source = source; origin = origin } }
    {
        let mut block = self;
        block.source = source;
        block.origin = origin;
        block
    }

    /// The block with other bytes from a place on.
    pub(crate) fn with_bytes(self, from: u32, bytes: &[u8]) -> PlainBlock
        requires { from + length bytes.now ≤ length self.bytes }
        ensures { result ≡ record self { bytes = put_at from bytes.now self.bytes } }
    {
        let mut block = self;
        put_part(&mut block.bytes, from as usize, bytes);
        block
    }

    /// The block of whose number the source hangs here.
    pub(crate) fn with_home(self, home: Home) -> PlainBlock
        ensures { result ≡ record self { home = home } }
    {
        let mut block = self;
        block.home = home;
        block
    }

    /// The block to which a slot led that was taken out.
    pub(crate) fn taken_out(self) -> PlainBlock
        ensures { result ≡ record self { taken = true } }
    {
        let mut block = self;
        block.taken = true;
        block
    }

    /// The root block, to be closed alone.
    pub(crate) fn closed_alone(self) -> PlainBlock
        ensures { result ≡ record self { retired = true } }
    {
        let mut block = self;
        block.retired = true;
        block
    }

    /// The root block of a snapshot that is kept no more.
    pub(crate) fn forgotten(self) -> PlainBlock
        ensures { result ≡ record self { kept = false } }
    {
        let mut block = self;
        block.kept = false;
        block
    }

    /// A copy of the block, of this epoch, to come in its place.
    pub(crate) fn copied(self, at: u32, epoch: u32) -> PlainBlock
        ensures { result ≡ record self { epoch = epoch; apart = true; origin = at; home = nowhere; taken = false; retired = false; kept = false } }
    {
        let mut block = self;
        block.epoch = epoch;
        block.apart = true;
        block.origin = at;
        block.home = nowhere();
        block.taken = false;
        block.retired = false;
        block.kept = false;
        block
    }

    /// The root block of the next epoch, after this one at this address.
    pub(crate) fn next_root(self, at: u32, epoch: u32) -> PlainBlock
        ensures block { result ≡ record self { epoch = epoch; home = nowhere; taken = false; retired = false; slots = slice_set self.slots 2 (Prev self.epoch at) } }
        ensures here { slot_of result 2 ≡ Prev self.epoch at }
    {
        let mut block = self;
        block.slots[2] = Slot::Prev(self.epoch, at);
        block.epoch = epoch;
        block.home = nowhere();
        block.taken = false;
        block.retired = false;
        block
    }

    /// Whether the block is apart, comes in the place of none, and leads nowhere, so that the index of its place is free.
    pub(crate) fn is_free(&self) -> bool
        ensures { IsTrue result ↔ IsFree self.now }
    {
        self.apart && self.origin == 0 && leads_nowhere(&self.slots)
    }

    /// Whether a block that is put into slot `i` of this one has this one raised over it, as a new top.
    pub(crate) fn is_raised(&self, i: u32) -> bool
        ensures { IsTrue result ↔ ((i ≡ 0) × IsFree self.now) }
    {
        i == 0 && self.is_free()
    }
}

/// Whether these slots lead to no block.
fn leads_nowhere(slots: &[Slot]) -> bool
    ensures { IsTrue result ↔ ((j x : ℕ) → target (slice_index_or slots.now j (To Nil)) ≢ Local x) }
{
    for slot in slots {
        if let Pointer::Local(_) = slot.target() {
            return false;
        }
    }
    true
}

/// Whether a slot leads to no block, or to another one.
pub(crate) fn leads_elsewhere(slot: &Slot, x: u32) -> bool
    ensures { result ≡ elsewhere x (target slot.now) }
{
    match slot.target() {
        Pointer::Local(y) => y != x,
        Pointer::Nil | Pointer::Score(_) => true,
    }
}

/// No slot, from which nothing hangs.
pub(crate) fn nowhere() -> Home
    ensures { result ≡ nowhere }
{
    Home {
        hangs: false,
        source: 0,
        index: 0,
        slot: 0,
    }
}

/// Whether a block of this kind is a block of pointers.
pub(crate) fn is_inner(kind: Kind) -> bool
    ensures { IsTrue result ↔ IsInner kind }
{
    match kind {
        Kind::Data(level) | Kind::Dir(level) => 0 < level,
        Kind::Root => false,
    }
}

/// The index that counts the entries of the block at a place among those of its source.
pub(crate) fn index_in(place: &Place) -> u64
    ensures { result ≡ index_in place.now }
{
    match place.kind {
        Kind::Root => 0,
        Kind::Data(_) | Kind::Dir(_) => place.index,
    }
}

/// Copies bytes into a part.
pub(crate) fn put_part(into: &mut [u8], from: usize, bytes: &[u8])
    requires { from + length bytes.now ≤ length into.old }
    ensures { into.new ≡ put_at from bytes.now into.old }
{
    into[from..from + bytes.len()].copy_from_slice(bytes);
}

/// The index of the place below slot `i`; `own` where that is 2^64 or more.
pub(crate) fn index_below(place: &Place, i: u32, own: u64) -> u64
    ensures { (result ≡ index_below place.now i) ⊎ ((2 ^ 64 ≤ index_below place.now i) × (result ≡ own)) }
{
    match place.kind {
        Kind::Dir(0) | Kind::Root => 0,
        Kind::Dir(_) | Kind::Data(_) => line_up(place.index, i).unwrap_or(own),
    }
}

/// The index of block `i` of those below.
fn line_up(index: u64, i: u32) -> Option<u64>
    ensures { MatchOption result (2 ^ 64 ≤ 409 * index + i) (λ n. n ≡ 409 * index + i) }
{
    (POINTERS as u64).checked_mul(index)?.checked_add(i as u64)
}

/// The depth of the source that an entry names.
pub(crate) fn depth(slot: &Slot) -> u32
    ensures { result ≡ depth_of slot.now }
{
    match slot {
        Slot::Entry(entry) => entry.depth as u32,
        Slot::Pointer(_) | Slot::Prev(_, _) => 0,
    }
}

/// How many removals it takes to lead a slot from one pointer to another, in the same source.
pub(crate) fn ends(old: &Pointer, new: &Pointer) -> u32
    ensures { result ≡ ends old.now new.now }
{
    match (old, new) {
        (Pointer::Local(_), Pointer::Local(_)) => 0,
        (Pointer::Local(_), _) => 1,
        _ => 0,
    }
}

/// An entry that names nothing.
pub(crate) fn no_entry() -> Entry
    ensures { result ≡ no_entry }
{
    Entry {
        generation: 0,
        active: false,
        dir: false,
        depth: 0,
        tag: 0,
        size: 0,
        top: Pointer::Nil,
    }
}

/// One value in each place.
fn repeated<T: Copy, const N: usize>(item: T) -> [T; N]
    ensures { (i : ℕ) → slice_index_or result i item ≡ item }
{
    [item; N]
}

/// The slots of an entry leaf of zeros.
fn entry_slots() -> [Slot; POINTERS]
    ensures { (i : ℕ) → slice_index_or result i (To Nil) ≡ blank_slot (Dir 0) i }
{
    let mut slots = no_slots();
    for i in 0..204usize {
        slots[i] = Slot::Entry(no_entry());
    }
    slots
}

/// The slots of a root block of zeros.
fn root_slots() -> [Slot; POINTERS]
    ensures { (i : ℕ) → slice_index_or result i (To Nil) ≡ blank_slot Root i }
{
    let mut slots = no_slots();
    slots[0] = Slot::Entry(no_entry());
    slots[1] = Slot::Entry(no_entry());
    slots[2] = Slot::Prev(0, 0);
    slots
}

/// Slots that lead nowhere.
pub(crate) fn no_slots() -> [Slot; POINTERS]
    ensures { (i : ℕ) → slice_index_or result i (To Nil) ≡ To Nil }
{
    repeated(Slot::Pointer(Pointer::Nil))
}

/// The slots of a block of zeros.
fn blank_slots(kind: Kind) -> [Slot; POINTERS]
    ensures { (i : ℕ) → slice_index_or result i (To Nil) ≡ blank_slot kind i }
{
    match kind {
        Kind::Dir(0) => entry_slots(),
        Kind::Root => root_slots(),
        Kind::Dir(_) | Kind::Data(_) => no_slots(),
    }
}

/// The bytes of a block of zeros.
pub(crate) fn no_bytes() -> [u8; BLOCK]
    ensures { result ≡ zero_bytes }
{
    [0; BLOCK]
}

/// A block of zeros, which is apart, and the first of its source.
pub(crate) fn blank_block(place: Place, epoch: u32, source: u32) -> PlainBlock
    ensures place { (result.place ≡ place) × (result.epoch ≡ epoch) × (result.source ≡ source) }
    ensures marks { (result.apart ≡ true) × (result.origin ≡ 0) × (result.taken ≡ false) × (result.kept ≡ false) × (result.home ≡ nowhere) × (result.retired ≡ false) }
    ensures content { SameContent (content_of result) (blank place.kind) }
    ensures bytes { result.bytes ≡ zero_bytes }
{
    PlainBlock {
        place,
        epoch,
        apart: true,
        origin: 0,
        source,
        home: nowhere(),
        taken: false,
        retired: false,
        kept: false,
        bytes: no_bytes(),
        slots: blank_slots(place.kind),
    }
}
