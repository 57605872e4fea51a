//! Bytes of a block, read and put.
ghost use Rattle.std.specs.Prelude.{◌≡◌, ◌+◌, ◌≤◌, ℕ, length, take, drop};
ghost use Rattle.fo_image.specs.declared.types.Kind.{Kind};
ghost use Rattle.fo_ports.specs.Blocks.{MayPut, ReadsSlots, put_at};
ghost use Rattle.fo_slots.specs.Read.{read, KeepsBeside};

use fo_image::Kind;

/// So many bytes from a place on.
pub(crate) fn part(bytes: &[u8], from: usize, len: usize) -> &[u8]
    requires { from + len ≤ length bytes.now }
    ensures is { result.now ≡ take len (drop from bytes.now) }
    ensures len { length result.now ≡ len }
{
    &bytes[from..from + len]
}

/// Copies bytes into a part.
pub(crate) fn put_part(into: &mut [u8], from: usize, bytes: &[u8])
    requires { from + length bytes.now ≤ length into.old }
    ensures { into.new ≡ put_at from bytes.now into.old }
{
    into[from..from + bytes.len()].copy_from_slice(bytes);
}

/// Puts bytes, and keeps all others.
fn put_beside(into: &mut [u8], from: usize, bytes: &[u8])
    requires { from + length bytes.now ≤ length into.old }
    ensures is { into.new ≡ put_at from bytes.now into.old }
    ensures beside { KeepsBeside from (from + length bytes.now) into.old into.new }
{
    put_part(into, from, bytes);
}

/// Puts bytes into those of a block of this kind, none of which spells a slot.
pub fn put_bytes_into(kind: Kind, from: usize, bytes: &[u8], into: &mut [u8])
    requires within { from + length bytes.now ≤ 8192 }
    requires place { MayPut kind from (from + length bytes.now) }
    requires length { length into.old ≡ 8192 }
    ensures is { into.new ≡ put_at from bytes.now into.old }
    ensures same { (i : ℕ) → (read kind into.new).slot i ≡ (read kind into.old).slot i }
    ensures slots { ReadsSlots kind (read kind into.old) into.old → ReadsSlots kind (read kind into.new) into.new }
{
    put_beside(into, from, bytes);
    let _ = kind;
}
