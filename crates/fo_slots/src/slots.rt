//! The slots of a block in its bytes.
ghost use Rattle.std.specs.Prelude.{◌≡◌, ◌+◌, ◌<◌, ◌≤◌, ◌↔◌, ◌++◌, ℕ, List, length, take, drop, IsTrue, MatchOption};
ghost use Rattle.fo_image.specs.declared.types.Pointer.TheVariants.{Nil};
ghost use Rattle.fo_image.specs.Field.{Four, number};
ghost use Rattle.fo_ports.specs.of_crash.declared.slot.Slot.{Slot};
ghost use Rattle.fo_ports.specs.of_crash.declared.slot.Slot.TheVariants.{Pointer as To, Entry as Head};
ghost use Rattle.fo_ports.specs.Blocks.{slot_count, slot_start, slot_size, SlotFits, SpellsSlot, IsPointer, IsEntry, IsPrev, IsFormed, put_at, ReadsSlots, Reads};
ghost use Rattle.fo_slots.specs.Read.{pointer_from, entry_from, prev_from, slot_from, slot_bytes, width, read, IsSlot, IsInRange, HasSpelling, HasNumbers, IsMeant, KeepsBeside, PutsInto};
ghost use Rattle.fo_image.specs.declared.types.Kind.{Kind};
ghost use Rattle.fo_ports.specs.of_crash.Images.{Content};

use crate::bytes::{part, put_part};
use fo_image::{Kind, Pointer, read_entry, read_pointer, u32_at, write_entry, write_pointer};
use fo_ports::Slot;

/// How many slots a block of this kind has.
pub fn slot_count(kind: Kind) -> usize
    ensures is { result ≡ slot_count kind }
    ensures most { result ≤ 409 }
{
    match kind {
        Kind::Data(0) => 0,
        Kind::Dir(0) => 204,
        Kind::Data(_) | Kind::Dir(_) => 409,
        Kind::Root => 3,
    }
}

/// The byte at which slot `i` of a block of this kind begins.
fn slot_start(kind: Kind, i: usize) -> usize
    requires { i < slot_count kind }
    ensures { result ≡ slot_start kind i }
{
    match kind {
        Kind::Dir(0) => 40 * i,
        Kind::Data(_) | Kind::Dir(_) => 20 * i,
        Kind::Root => match i {
            0 => 24,
            1 => 64,
            _ => 16,
        },
    }
}

/// How many bytes slot `i` of a block of this kind takes.
fn width(kind: Kind, i: usize) -> usize
    ensures { result ≡ width kind i }
{
    match kind {
        Kind::Dir(0) => 40,
        Kind::Data(_) | Kind::Dir(_) => 20,
        Kind::Root => match i {
            0 | 1 => 40,
            _ => 8,
        },
    }
}

fn pointer_slot(bytes: &[u8]) -> Slot
    requires { length bytes.now ≡ 20 }
    ensures { (result ≡ To (pointer_from bytes.now)) × IsPointer result × SpellsSlot result bytes.now }
{
    Slot::Pointer(read_pointer(bytes))
}

fn entry_slot(bytes: &[u8]) -> Option<Slot>
    requires { length bytes.now ≡ 40 }
    ensures { MatchOption result ((s : Slot) → IsEntry s → SpellsSlot s bytes.now → ⊥) (λ s. (s ≡ Head (entry_from bytes.now)) × IsEntry s × SpellsSlot s bytes.now) }
{
    let Ok(entry) = read_entry(bytes) else {
        return None;
    };
    if 4 < entry.depth {
        return None;
    }
    Some(Slot::Entry(entry))
}

fn prev_slot(bytes: &[u8]) -> Slot
    requires { length bytes.now ≡ 8 }
    ensures { (result ≡ prev_from bytes.now) × IsPrev result × SpellsSlot result bytes.now }
{
    Slot::Prev(u32_at(bytes, 0), u32_at(bytes, 4))
}

/// The slot that the bytes of slot `i` spell.
fn slot_in(kind: Kind, i: usize, bytes: &[u8]) -> Option<Slot>
    requires count { i < slot_count kind }
    requires width { length bytes.now ≡ width kind i }
    ensures { MatchOption result ((s : Slot) → SlotFits kind i s → SpellsSlot s bytes.now → ⊥) (λ s. (s ≡ slot_from kind i bytes.now) × SlotFits kind i s × SpellsSlot s bytes.now) }
{
    match kind {
        Kind::Dir(0) => entry_slot(bytes),
        Kind::Data(_) | Kind::Dir(_) => Some(pointer_slot(bytes)),
        Kind::Root => match i {
            0 | 1 => entry_slot(bytes),
            _ => Some(prev_slot(bytes)),
        },
    }
}

/// Slot `i` of a block of this kind, where its bytes spell one: pointers always do, and entries of at most four levels.
pub fn read_slot(kind: Kind, bytes: &[u8], i: usize) -> Option<Slot>
    requires count { i < slot_count kind }
    requires length { length bytes.now ≡ 8192 }
    ensures { MatchOption result ((s : Slot) → IsSlot kind bytes.now i s → ⊥) (λ s. (s ≡ (read kind bytes.now).slot i) × IsSlot kind bytes.now i s) }
{
    slot_in(kind, i, part(bytes, slot_start(kind, i), width(kind, i)))
}

/// Whether the bytes of each slot spell one.
pub fn has_slots(kind: Kind, bytes: &[u8]) -> bool
    requires { length bytes.now ≡ 8192 }
    ensures { IsTrue result ↔ ReadsSlots kind (read kind bytes.now) bytes.now }
{
    for i in 0..slot_count(kind) {
        let Some(_) = read_slot(kind, bytes, i) else {
            return false;
        };
    }
    true
}

/// Slot `i` of a block of this kind, whose slots are all spelled.
pub fn slot_of(kind: Kind, bytes: &[u8], i: usize) -> Slot
    requires count { i < slot_count kind }
    requires length { length bytes.now ≡ 8192 }
    requires slots { ReadsSlots kind (read kind bytes.now) bytes.now }
    ensures { result ≡ (read kind bytes.now).slot i }
{
    match read_slot(kind, bytes, i) {
        Some(slot) => slot,
        None => Slot::Pointer(Pointer::Nil),
    }
}

/// The two numbers of the root block before.
fn prev_bytes(epoch: u32, at: u32) -> [u8; 8]
    ensures { result ≡ number Four epoch ++ number Four at }
{
    let mut bytes = [0; 8];
    bytes[..4].copy_from_slice(&epoch.to_be_bytes());
    bytes[4..].copy_from_slice(&at.to_be_bytes());
    bytes
}

/// Spells a slot from a place on.
fn spell_slot(slot: &Slot, from: usize, into: &mut [u8])
    requires spelled { HasSpelling slot.now }
    requires within { from + slot_size slot.now ≤ length into.old }
    ensures here { SpellsSlot slot.now (take (slot_size slot.now) (drop from into.new)) }
    ensures beside { KeepsBeside from (from + slot_size slot.now) into.old into.new }
    ensures range { IsInRange slot.now }
{
    match slot {
        Slot::Pointer(pointer) => {
            let mut bytes = [0; 20];
            write_pointer(pointer, &mut bytes);
            put_part(into, from, &bytes);
        }
        Slot::Entry(entry) => {
            let mut bytes = [0; 40];
            write_entry(entry, &mut bytes);
            put_part(into, from, &bytes);
        }
        Slot::Prev(epoch, at) => put_part(into, from, &prev_bytes(*epoch, *at)),
    }
}

/// Puts a slot that fits into the bytes of a block of this kind.
pub fn put_slot_into(kind: Kind, i: usize, slot: &Slot, bytes: &mut [u8])
    requires count { i < slot_count kind }
    requires fits { SlotFits kind i slot.now }
    requires length { length bytes.old ≡ 8192 }
    ensures { PutsInto kind i slot.now bytes.old bytes.new }
{
    spell_slot(slot, slot_start(kind, i), bytes);
}

/// Bytes are read as the content that they mean, and are of their format where what is read of it is.
pub fn read_is_read()
    ensures { (kind : Kind) (bytes : List ℕ) → length bytes ≡ 8192 → Reads kind (read kind bytes) bytes × ((rank : ℕ) → IsFormed kind rank bytes ↔ IsFormed kind rank ((read kind bytes).bytes)) }
{}

/// Bytes that spell the slots of a content mean those slots, and no others.
pub fn spelled_is_meant()
    ensures { (kind : Kind) (c : Content) (bytes : List ℕ) → HasNumbers kind c → ReadsSlots kind c bytes → IsMeant kind c bytes }
{}
