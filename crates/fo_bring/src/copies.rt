//! A block is copied out.
ghost use Rattle.std.specs.Prelude.{◌≡◌, ◌↔◌, true, false, length, nat_eq, Some, IsSome, IfSome, IsTrue};
ghost use Rattle.std.specs.Map.{lookup};
ghost use Rattle.fo_buffers.specs.Held.{held_at};
ghost use Rattle.fo_buffers.specs.declared.block.Buffer.{Buffer};
ghost use Rattle.fo_buffers.specs.of_ports.Blocks.{IsFormed, IsRanked, ReadsSlots};
ghost use Rattle.fo_buffers.specs.of_slots.Read.{read};
ghost use Rattle.fo_bring.specs.Blocks.{HasZeros, Gets, Good};
ghost use Rattle.fo_bring.specs.Holds.{GoodIn, GetsIn, GetsGood, GetsClean, RanksIn};

use crate::good::is_good;
use fo_buffers::{Buffers, is_formed, read_is_read};
use fo_image::Kind;

// The bytes of a block of this kind and rank, where they are of the format.
fn if_formed<'a>(bytes: &'a [u8], kind: Kind, rank: u32, formed: bool) -> Option<&'a [u8]>
    requires long { length bytes.now ≡ 8192 }
    requires slots { ReadsSlots kind (read kind bytes.now) bytes.now }
    requires zeros { HasZeros kind bytes.now }
    requires formed { IsTrue formed ↔ IsFormed kind rank bytes.now }
    ensures long { IfSome result (λ b. length b.now ≡ 8192) }
    ensures lent { IfSome result (λ b. Gets kind rank bytes.now b.now) }
    ensures again { IsRanked kind rank (read kind bytes.now).bytes → IsSome result }
{
    read_is_read();
    if formed { Some(bytes) } else { None }
}

/// Lends the bytes of a held block of this kind and rank, where they are of the format.
pub fn lend_held<'a>(
    buffers: &'a Buffers,
    first: u32,
    count: u32,
    kind: Kind,
    rank: u32,
    at: u32,
) -> Option<&'a [u8]>
    requires { (x : Buffer) → held_at buffers.now at ≡ Some x → Good first count kind x.block }
    ensures long { IfSome result (λ b. length b.now ≡ 8192) }
    ensures lent { IfSome result (λ b. GetsIn kind rank (held_at buffers.now at) b.now) }
    ensures again { RanksIn kind rank (held_at buffers.now at) → IsSome result }
{
    match buffers.block(at) {
        Some(block) => if_formed(block.bytes(), kind, rank, block.is_formed(kind, rank)),
        None => None,
    }
}

/// Copies the bytes of a block of this kind and rank, where they are of the format.
fn copy_formed(bytes: &[u8], kind: Kind, rank: u32, into: &mut [u8]) -> bool
    requires length { length into.old ≡ 8192 }
    requires long { length bytes.now ≡ 8192 }
    requires slots { ReadsSlots kind (read kind bytes.now) bytes.now }
    requires zeros { HasZeros kind bytes.now }
    ensures copied { result ≡ true → Gets kind rank bytes.now into.new }
    ensures again { IsRanked kind rank (read kind bytes.now).bytes → result ≡ true }
    ensures nothing { result ≡ false → into.new ≡ into.old }
{
    match if_formed(bytes, kind, rank, is_formed(kind, rank, bytes)) {
        Some(bytes) => {
            into.copy_from_slice(bytes);
            true
        }
        None => false,
    }
}

/// Copies out a held block of this kind and rank, where its bytes are of the format.
pub fn copy_held(
    buffers: &Buffers,
    first: u32,
    count: u32,
    kind: Kind,
    rank: u32,
    at: u32,
    into: &mut [u8],
) -> bool
    requires length { length into.old ≡ 8192 }
    requires good { GoodIn first count kind (held_at buffers.now at) }
    ensures copied { result ≡ true → GetsIn kind rank (held_at buffers.now at) into.new }
    ensures again { RanksIn kind rank (held_at buffers.now at) → result ≡ true }
    ensures nothing { result ≡ false → into.new ≡ into.old }
{
    match buffers.bytes(at) {
        Some(bytes) => copy_formed(bytes, kind, rank, into),
        None => false,
    }
}

// Copies out a clean block, where its bytes are good and of the format.
pub(crate) fn copy_clean(
    buffers: &Buffers,
    first: u32,
    count: u32,
    kind: Kind,
    rank: u32,
    at: u32,
    into: &mut [u8],
) -> bool
    requires length { length into.old ≡ 8192 }
    ensures copied { result ≡ true → GetsClean first count kind rank (lookup (nat_eq at) buffers.now.clean) into.new }
    ensures nothing { result ≡ false → into.new ≡ into.old }
{
    match buffers.clean_bytes(at) {
        Some(bytes) => copy_good(bytes, first, count, kind, rank, into),
        None => false,
    }
}

// Copies the bytes of a block, where they are good and of the format.
fn copy_good(bytes: &[u8], first: u32, count: u32, kind: Kind, rank: u32, into: &mut [u8]) -> bool
    requires length { length into.old ≡ 8192 }
    requires long { length bytes.now ≡ 8192 }
    ensures copied { result ≡ true → GetsGood first count kind rank bytes.now into.new }
    ensures nothing { result ≡ false → into.new ≡ into.old }
{
    if !is_good(first, count, kind, bytes) {
        return false;
    }
    copy_formed(bytes, kind, rank, into)
}
