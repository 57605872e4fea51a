//! Pointers, of 20 bytes.
ghost use Rattle.std.specs.Prelude.{◌≡◌, ◌↔◌, length, IsTrue};
ghost use Rattle.fo_image.specs.declared.types.Pointer.{Pointer};
ghost use Rattle.fo_image.specs.Format.{pointer_bytes, IsScore, PointerHolds, SpellsPointer};

use crate::parts::{is_zero, score_at, u32_at};
use crate::types::{Pointer, Score};

/// Whether the score does not begin with sixteen zeros.
pub fn is_score(score: Score) -> bool
    ensures { IsTrue result ↔ IsScore score.0 }
{
    !is_zero(&score.0[..16])
}

/// Whether the pointer has a spelling.
pub fn is_pointer(pointer: Pointer) -> bool
    ensures { IsTrue result ↔ PointerHolds pointer }
{
    match pointer {
        Pointer::Nil => true,
        Pointer::Local(address) => address < u32::MAX,
        Pointer::Score(score) => is_score(score),
    }
}

/// The bytes of the pointer.
pub fn bytes_of(pointer: Pointer) -> [u8; 20]
    requires { PointerHolds pointer }
    ensures is { result ≡ pointer_bytes pointer }
    ensures len { length result ≡ 20 }
{
    match pointer {
        Pointer::Nil => [0; 20],
        Pointer::Local(address) => {
            let mut bytes = [0; 20];
            bytes[16..].copy_from_slice(&(address + 1).to_be_bytes());
            bytes
        }
        Pointer::Score(score) => score.0,
    }
}

/// Fills the 20 bytes with the pointer.
pub fn write_pointer(v: &Pointer, into: &mut [u8])
    requires spelled { PointerHolds v.now }
    requires length { length into.old ≡ 20 }
    ensures { SpellsPointer v.now into.new }
{
    into.copy_from_slice(&bytes_of(*v));
}

/// The pointer that the 20 bytes spell: each 20 bytes spell one.
pub fn read_pointer(bytes: &[u8]) -> Pointer
    requires { length bytes.now ≡ 20 }
    ensures found { SpellsPointer result bytes.now }
    ensures only { (p : Pointer) → SpellsPointer p bytes.now → p ≡ result }
{
    if is_zero(&bytes[..16]) {
        match u32_at(bytes, 16) {
            0 => Pointer::Nil,
            place => Pointer::Local(place - 1),
        }
    } else {
        Pointer::Score(score_at(bytes, 0))
    }
}
