//! Whether the bytes of a block are of the format of its kind.
ghost use Rattle.std.specs.Prelude.{◌≡◌, ◌≤◌, ◌↔◌, length, drop, IsTrue};
ghost use Rattle.fo_ports.specs.Blocks.{AreZeros, IsFormed, slots_to};
ghost use Rattle.fo_image.specs.declared.types.Kind.TheVariants.{Data, Dir};

use crate::leaf::is_leaf;
use crate::root::is_root_beside;
use fo_image::{Kind, is_zero};

/// Whether the bytes of a block of this kind and rank are of its format: a leaf of records is one, a root block has its own
/// record, behind the last pointer or entry there are zeros. What stands where slots are spelled says nothing (`has_slots` looks there).
pub fn is_formed(kind: Kind, rank: u32, bytes: &[u8]) -> bool
    requires { length bytes.now ≡ 8192 }
    ensures { IsTrue result ↔ IsFormed kind rank bytes.now }
{
    match kind {
        Kind::Data(0) => is_data_formed(rank, bytes),
        Kind::Data(_) => is_zero_from(8180, bytes),
        Kind::Dir(level) => is_zero_from(dir_end(level), bytes),
        Kind::Root => is_root_beside(bytes),
    }
}

/// Where the slots of a block of a directory end.
fn dir_end(level: u8) -> usize
    ensures { result ≡ slots_to (Dir level) }
{
    if level == 0 { 8160 } else { 8180 }
}

/// Whether the bytes of a block are zero from this place on.
fn is_zero_from(from: usize, bytes: &[u8]) -> bool
    requires whole { length bytes.now ≡ 8192 }
    requires within { from ≤ 8192 }
    ensures { IsTrue result ↔ ((length bytes.now ≡ 8192) × AreZeros (drop from bytes.now)) }
{
    is_zero(&bytes[from..])
}

fn is_data_formed(rank: u32, bytes: &[u8]) -> bool
    requires { length bytes.now ≡ 8192 }
    ensures { IsTrue result ↔ IsFormed (Data 0) rank bytes.now }
{
    if rank % 32 != 16 {
        return true;
    }
    is_leaf(bytes)
}
