//! Fields written into a slice, looked for in one, and read from one.
ghost use Rattle.std.specs.Prelude.{◌≡◌, ◌≢◌, ◌==◌, ℕ, ◌+◌, ◌≤◌, ◌<◌, ◌↔◌, ◌++◌, List, length, take, drop, IsTrue, MatchOption};
ghost use Rattle.std.specs.List.{list_all};
ghost use Rattle.fo_image.specs.Field.{One, Two, Four, Eight, number, padded, number_at};
ghost use Rattle.fo_image.specs.Part.{part_bytes, parts_bytes};

use crate::types::Score;

/// A field as it is written.
#[derive(Clone, Copy)]
pub enum Part<'a> {
    One(u8),
    Two(u16),
    Four(u32),
    Eight(u64),
    Twenty([u8; 20]),
    Bytes(&'a [u8]),
}

fn one(n: u8) -> [u8; 1]
    ensures { result ≡ number One n }
{
    [n]
}

fn put_bytes(bytes: &[u8], into: &mut [u8], at: usize) -> usize
    requires { at + length bytes.now ≤ length into.old }
    ensures next { result ≡ at + length bytes.now }
    ensures front { take result into.new ≡ take at into.old ++ bytes.now }
{
    let end = at + bytes.len();
    into[at..end].copy_from_slice(bytes);
    end
}

fn put(part: Part, into: &mut [u8], at: usize) -> usize
    requires { at + length (part_bytes part) ≤ length into.old }
    ensures next { result ≡ at + length (part_bytes part.entry) }
    ensures front { take result into.new ≡ take at into.old ++ part_bytes part.entry }
{
    match part {
        Part::One(n) => put_bytes(&one(n), into, at),
        Part::Two(n) => put_bytes(&n.to_be_bytes(), into, at),
        Part::Four(n) => put_bytes(&n.to_be_bytes(), into, at),
        Part::Eight(n) => put_bytes(&n.to_be_bytes(), into, at),
        Part::Twenty(bytes) => put_bytes(&bytes, into, at),
        Part::Bytes(bytes) => put_bytes(bytes, into, at),
    }
}

/// Writes the parts one after the other, and zeros after them.
pub fn write_parts(parts: &[Part], into: &mut [u8])
    requires { length (parts_bytes parts.now) ≤ length into.old }
    ensures { into.new ≡ padded (length into.old) (parts_bytes parts.now) }
{
    let mut at = 0;
    for part in parts {
        at = put(*part, into, at);
    }
    into[at..].fill(0);
}

/// What follows the prefix, where the bytes begin with it.
fn after<'a>(bytes: &'a [u8], prefix: &[u8]) -> Option<&'a [u8]>
    ensures { MatchOption result ((rest : List ℕ) → bytes.now ≢ prefix.now ++ rest) (λ rest. bytes.now ≡ prefix.now ++ rest.now) }
{
    bytes.strip_prefix(prefix)
}

/// What follows the part, where the bytes begin with it.
fn after_part<'a>(bytes: &'a [u8], part: Part) -> Option<&'a [u8]>
    ensures { MatchOption result ((rest : List ℕ) → bytes.now ≢ part_bytes part.entry ++ rest) (λ rest. bytes.now ≡ part_bytes part.entry ++ rest.now) }
{
    match part {
        Part::One(n) => after(bytes, &one(n)),
        Part::Two(n) => after(bytes, &n.to_be_bytes()),
        Part::Four(n) => after(bytes, &n.to_be_bytes()),
        Part::Eight(n) => after(bytes, &n.to_be_bytes()),
        Part::Twenty(fixed) => after(bytes, &fixed),
        Part::Bytes(fixed) => after(bytes, fixed),
    }
}

/// Whether the bytes are zero. It doesn't stop at the first that isn't, so that many are compared at a time.
pub fn is_zero(bytes: &[u8]) -> bool
    ensures { result ≡ list_all (λ b. b == 0) bytes.now }
{
    let mut zero = true;
    for byte in bytes {
        zero &= *byte == 0;
    }
    zero
}

/// Whether the bytes are the parts one after the other, and zeros after them.
pub fn is_spelled(parts: &[Part], bytes: &[u8]) -> bool
    ensures { IsTrue result ↔ (bytes.now ≡ padded (length bytes.now) (parts_bytes parts.now)) }
{
    let mut rest = bytes;
    for part in parts {
        let Some(more) = after_part(rest, *part) else {
            return false;
        };
        rest = more;
    }
    is_zero(rest)
}

/// The number of two bytes at this place.
#[tactic(auto, unfolding(crate::specs::Field::number_at))]
pub fn u16_at(bytes: &[u8], at: usize) -> u16
    requires { at + 2 ≤ length bytes.now }
    ensures { result ≡ number_at Two at bytes.now }
{
    u16::from_be_bytes([bytes[at], bytes[at + 1]])
}

/// The number of four bytes at this place.
#[tactic(auto, unfolding(crate::specs::Field::number_at))]
pub fn u32_at(bytes: &[u8], at: usize) -> u32
    requires { at + 4 ≤ length bytes.now }
    ensures { result ≡ number_at Four at bytes.now }
{
    u32::from_be_bytes([bytes[at], bytes[at + 1], bytes[at + 2], bytes[at + 3]])
}

/// The number of eight bytes at this place.
#[tactic(auto, unfolding(crate::specs::Field::number_at))]
pub fn u64_at(bytes: &[u8], at: usize) -> u64
    requires { at + 8 ≤ length bytes.now }
    ensures { result ≡ number_at Eight at bytes.now }
{
    let (front, _) = bytes[at..].split_at(8);
    u64::from_be_bytes([
        front[0], front[1], front[2], front[3], front[4], front[5], front[6], front[7],
    ])
}

/// The score at this place.
pub fn score_at(bytes: &[u8], at: usize) -> Score
    requires { at + 20 ≤ length bytes.now }
    ensures { result.0 ≡ take 20 (drop at bytes.now) }
{
    let mut score = [0; 20];
    score.copy_from_slice(&bytes[at..at + 20]);
    Score(score)
}
