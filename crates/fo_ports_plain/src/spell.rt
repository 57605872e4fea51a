//! The slots of a block, spelled into its bytes.
ghost use Rattle.std.specs.Prelude.{◌≡◌, ◌+◌, ◌<◌, ◌≤◌, ◌++◌, ℕ, length, take, drop, slice_index_or};
ghost use Rattle.fo_image.specs.Field.{Four, number};
ghost use Rattle.fo_image.specs.declared.types.Pointer.TheVariants.{Nil};
ghost use Rattle.fo_crash.specs.declared.slot.Slot.TheVariants.{Pointer as To};
ghost use Rattle.fo_ports.specs.Blocks.{slot_count, slot_start, slot_size, slots_from, slots_to, SlotFits, SpellsSlot};
ghost use Rattle.fo_ports_plain.specs.Spell.{HasSpelling, KeepsBeside};

use crate::block::put_part;
use fo_base::POINTERS;
use fo_crash::Slot;
use fo_image::{Kind, write_entry, write_pointer};

/// How many slots a block of this kind has.
fn slot_count(kind: Kind) -> usize
    ensures { result ≡ slot_count kind }
{
    match kind {
        Kind::Data(0) => 0,
        Kind::Dir(0) => 204,
        Kind::Data(_) | Kind::Dir(_) => POINTERS,
        Kind::Root => 3,
    }
}

/// The byte at which slot `i` of a block of this kind begins.
fn slot_start(kind: Kind, i: usize) -> usize
    requires { i < slot_count kind }
    ensures { result ≡ slot_start kind i }
{
    match kind {
        Kind::Dir(0) => 40 * i,
        Kind::Data(_) | Kind::Dir(_) => 20 * i,
        Kind::Root => match i {
            0 => 24,
            1 => 64,
            _ => 16,
        },
    }
}

/// The two numbers of the root block before.
fn prev_bytes(epoch: u32, at: u32) -> [u8; 8]
    ensures { result ≡ number Four epoch ++ number Four at }
{
    let mut bytes = [0; 8];
    bytes[..4].copy_from_slice(&epoch.to_be_bytes());
    bytes[4..].copy_from_slice(&at.to_be_bytes());
    bytes
}

/// Spells a slot from a place on.
fn spell_slot(slot: &Slot, from: usize, into: &mut [u8])
    requires spelled { HasSpelling slot.now }
    requires within { from + slot_size slot.now ≤ length into.old }
    ensures here { SpellsSlot slot.now (take (slot_size slot.now) (drop from into.new)) }
    ensures beside { KeepsBeside from (from + slot_size slot.now) into.old into.new }
{
    match slot {
        Slot::Pointer(pointer) => {
            let mut bytes = [0; 20];
            write_pointer(pointer, &mut bytes);
            put_part(into, from, &bytes);
        }
        Slot::Entry(entry) => {
            let mut bytes = [0; 40];
            write_entry(entry, &mut bytes);
            put_part(into, from, &bytes);
        }
        Slot::Prev(epoch, at) => put_part(into, from, &prev_bytes(*epoch, *at)),
    }
}

/// Spells the slots of a block of this kind.
pub(crate) fn spell_slots(kind: Kind, slots: &[Slot], into: &mut [u8])
    requires slots { length slots.now ≡ 409 }
    requires length { length into.old ≡ 8192 }
    requires fit { (i : ℕ) → i < slot_count kind → SlotFits kind i (slice_index_or slots.now i (To Nil)) }
    ensures beside { KeepsBeside (slots_from kind) (slots_to kind) into.old into.new }
    ensures spelled { (i : ℕ) → i < slot_count kind → SpellsSlot (slice_index_or slots.now i (To Nil)) (take (slot_size (slice_index_or slots.now i (To Nil))) (drop (slot_start kind i) into.new)) }
{
    for i in 0..slot_count(kind) {
        spell_slot(&slots[i], slot_start(kind, i), into);
    }
}
