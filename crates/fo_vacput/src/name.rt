//! The name of an archive's root: `epoch <e> time <t>` in decimal, filled up with zeros.
ghost use Rattle.std.specs.Prelude.{◌≡◌, ◌==◌, ℕ, ◌^◌, ◌<◌, ◌≤◌, ◌++◌, ◌∷◌, List, Some, length, position, decimal, IsSomeAnd};
ghost use Rattle.fo_image.specs.Field.{padded};
ghost use Rattle.fo_image.specs.Part.{parts_bytes};
ghost use Rattle.fo_vacput.specs.Vac.{name_text};

use fo_image::{Part, write_parts};
use itoa::Buffer;

/// The parts one after the other, and zeros up to 128 bytes.
pub fn text_of(parts: &[Part]) -> [u8; 128]
    requires { length (parts_bytes parts.now) ≤ 128 }
    ensures is { result ≡ padded 128 (parts_bytes parts.now) }
    ensures len { length result ≡ 128 }
{
    let mut text = [0; 128];
    write_parts(parts, &mut text);
    text
}

/// The name of the root of this epoch and time.
pub fn name_of(epoch: u32, time: u32) -> [u8; 128]
    ensures is { result ≡ padded 128 (name_text epoch time) }
    ensures len { length result ≡ 128 }
{
    let mut first = Buffer::new();
    let mut second = Buffer::new();
    let epoch = first.format(epoch).as_bytes();
    let time = second.format(time).as_bytes();
    text_of(&[
        Part::Bytes(b"epoch "),
        Part::Bytes(epoch),
        Part::Bytes(b" time "),
        Part::Bytes(time),
    ])
}

/// Where the first byte `end` stands.
fn place_of(end: u8, bytes: &[u8]) -> Option<usize>
    ensures { result ≡ position (λ b. b == end) bytes.now }
{
    bytes.iter().position(|b| *b == end)
}

/// The only number that is written so in decimal.
fn number_of(word: &[u8]) -> Option<u32>
    ensures { (n : ℕ) → n < 2 ^ 32 → word.now ≡ decimal n → result ≡ Some n }
{
    let Ok(text) = str::from_utf8(word) else {
        return None;
    };
    text.parse::<u32>().ok()
}

/// The number in front of the first byte `end`, which is no digit, and what follows that byte.
fn number_before(end: u8, bytes: &[u8]) -> Option<(u32, &[u8])>
    requires { end < 48 }
    ensures { (n : ℕ) (more : List ℕ) → n < 2 ^ 32 → bytes.now ≡ decimal n ++ (end ∷ more) → IsSomeAnd result (λ p. (p.0 ≡ n) × (p.1.now ≡ more)) }
{
    let Some(at) = place_of(end, bytes) else {
        return None;
    };
    let Some(n) = number_of(&bytes[..at]) else {
        return None;
    };
    Some((n, &bytes[at + 1..]))
}

/// What follows the prefix, where the bytes begin with it.
fn after<'a>(bytes: &'a [u8], prefix: &[u8]) -> Option<&'a [u8]>
    ensures { (rest : List ℕ) → bytes.now ≡ prefix.now ++ rest → IsSomeAnd result (λ r. r.now ≡ rest) }
{
    bytes.strip_prefix(prefix)
}

/// The only epoch and time that a root of this name can have.
pub fn times_of(name: &[u8]) -> Option<(u32, u32)>
    ensures { (epoch time : ℕ) → epoch < 2 ^ 32 → time < 2 ^ 32 → name.now ≡ padded 128 (name_text epoch time) → result ≡ Some (epoch, time) }
{
    let rest = after(name, b"epoch ")?;
    let (epoch, rest) = number_before(b' ', rest)?;
    let rest = after(rest, b"time ")?;
    let (time, _) = number_before(0, rest)?;
    Some((epoch, time))
}
