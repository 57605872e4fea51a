//! Whether the bytes of a block may be held.
ghost use Rattle.std.specs.Prelude.{◌≡◌, ◌<◌, ◌≤◌, ◌↔◌, ℕ, length, drop, IsTrue};
ghost use Rattle.fo_image.specs.declared.types.Pointer.TheVariants.{Local};
ghost use Rattle.fo_buffers.specs.of_crash.Images.{target};
ghost use Rattle.fo_buffers.specs.of_ports.Blocks.{AreZeros, ReadsSlots, slots_to};
ghost use Rattle.fo_image.specs.declared.types.Kind.TheVariants.{Data, Dir};
ghost use Rattle.fo_buffers.specs.of_slots.Read.{read};
ghost use Rattle.fo_bring.specs.Blocks.{IsData, LeadsWithin, HasZeros, Good};

use fo_buffers::{has_slots, slot_count, slot_of};
use fo_image::{Kind, Pointer, is_zero};

/// Whether this is the address of a data block.
pub fn is_data(first: u32, count: u32, at: u32) -> bool
    ensures { IsTrue result ↔ IsData first count at }
{
    first <= at && at < count
}

/// Whether a pointer leads to a data block, if to any.
fn is_within(first: u32, count: u32, pointer: &Pointer) -> bool
    ensures { IsTrue result ↔ ((b : ℕ) → pointer.now ≡ Local b → IsData first count b) }
{
    match pointer {
        Pointer::Local(at) => is_data(first, count, *at),
        Pointer::Nil | Pointer::Score(_) => true,
    }
}

/// Whether each slot of a block leads to a data block, if to any.
fn leads_within(first: u32, count: u32, kind: Kind, bytes: &[u8]) -> bool
    requires length { length bytes.now ≡ 8192 }
    requires slots { ReadsSlots kind (read kind bytes.now) bytes.now }
    ensures { IsTrue result ↔ LeadsWithin first count kind bytes.now }
{
    for j in 0..slot_count(kind) {
        let pointer = slot_of(kind, bytes, j).target();
        if !is_within(first, count, &pointer) {
            return false;
        }
    }
    true
}

/// Where the slots of a block of a directory end.
fn dir_end(level: u8) -> usize
    ensures { result ≡ slots_to (Dir level) }
{
    if level == 0 { 8160 } else { 8180 }
}

/// Whether the bytes of a block are zero from this place on.
fn is_zero_from(from: usize, bytes: &[u8]) -> bool
    requires whole { length bytes.now ≡ 8192 }
    requires within { from ≤ 8192 }
    ensures { IsTrue result ↔ AreZeros (drop from bytes.now) }
{
    is_zero(&bytes[from..])
}

/// Whether zeros stand behind the last pointer of a block of data of this level, if it has any.
fn is_data_zero(level: u8, bytes: &[u8]) -> bool
    requires { length bytes.now ≡ 8192 }
    ensures { IsTrue result ↔ HasZeros (Data level) bytes.now }
{
    if level == 0 {
        return true;
    }
    is_zero_from(8180, bytes)
}

/// Whether zeros stand behind the last pointer or entry.
fn has_zeros(kind: Kind, bytes: &[u8]) -> bool
    requires { length bytes.now ≡ 8192 }
    ensures { IsTrue result ↔ HasZeros kind bytes.now }
{
    match kind {
        Kind::Data(level) => is_data_zero(level, bytes),
        Kind::Dir(level) => is_zero_from(dir_end(level), bytes),
        Kind::Root => true,
    }
}

/// Whether the bytes spell slots that lead to data blocks, with zeros behind them.
pub fn is_good(first: u32, count: u32, kind: Kind, bytes: &[u8]) -> bool
    requires { length bytes.now ≡ 8192 }
    ensures { IsTrue result ↔ Good first count kind bytes.now }
{
    if !has_slots(kind, bytes) {
        return false;
    }
    if !has_zeros(kind, bytes) {
        return false;
    }
    leads_within(first, count, kind, bytes)
}
