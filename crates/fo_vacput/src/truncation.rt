//! What the arena stores of a block, and the block made of it again.
ghost use Rattle.std.specs.Prelude.{◌≡◌, ◌≢◌, ℕ, List, MatchOption, ◌+◌, ◌-◌, ◌≤◌, ◌<◌, ◌++◌, length, take};
ghost use Rattle.fo_image.specs.Field.{zeros};
ghost use Rattle.fo_vacput.specs.declared.types.Tail.TheVariants.{Zeros, Scores};
ghost use Rattle.fo_vacput.specs.Cut.{IsWithout, ends_in_zeros, ends_in_scores, tail_of, nil_pointers, grown, IsCut};

use crate::types::{EMPTY, Tail};
use fo_image::is_zero;

fn ends_in_zeros(kind: u8) -> bool
    ensures { result ≡ ends_in_zeros kind }
{
    matches!(kind, 0 | 8 | 17)
}

fn ends_in_scores(kind: u8) -> bool
    ensures { result ≡ ends_in_scores kind }
{
    matches!(kind, 1..=4 | 9..=12)
}

/// What is left out at the end of blocks of this kind.
pub fn tail_of(kind: u8) -> Tail
    ensures { result ≡ tail_of kind }
{
    if ends_in_scores(kind) {
        Tail::Scores
    } else if ends_in_zeros(kind) {
        Tail::Zeros
    } else {
        Tail::Nothing
    }
}

/// What comes before the end, where the bytes end with it.
fn before<'a>(bytes: &'a [u8], end: &[u8]) -> Option<&'a [u8]>
    ensures { MatchOption result ((front : List ℕ) → bytes.now ≢ front ++ end.now) (λ front. bytes.now ≡ front.now ++ end.now) }
{
    bytes.strip_suffix(end)
}

/// The bytes without the units at their end.
fn without<'a>(bytes: &'a [u8], unit: &[u8]) -> &'a [u8]
    requires { 0 < length unit.now }
    ensures { IsWithout unit.now bytes.now result.now }
{
    let mut rest = bytes;
    while let Some(front) = before(rest, unit) {
        rest = front;
    }
    rest
}

/// How much is left of the bytes without the zeros at their end.
fn without_zeros(bytes: &[u8]) -> usize
    ensures { IsCut Zeros bytes.now result }
{
    without(bytes, &[0]).len()
}

/// How much is left of the pointers without the scores of the empty block at their end, and without the zeros that fill up the block.
/// Where something else fills it up, all of it.
fn without_scores(bytes: &[u8]) -> usize
    ensures { IsCut Scores bytes.now result }
{
    let (pointers, filling) = bytes.split_at(bytes.len() - bytes.len() % 20);
    if is_zero(filling) {
        without(pointers, &EMPTY.0).len()
    } else {
        bytes.len()
    }
}

/// How many bytes of the block are stored: the least number, and for pointers the least of whole ones, from which `grow` makes it
/// again. A pointer block in which something else than zeros comes after the pointers is stored whole.
pub fn cut(kind: u8, block: &[u8]) -> usize
    ensures { IsCut (tail_of kind) block.now result }
{
    match tail_of(kind) {
        Tail::Zeros => without_zeros(block),
        Tail::Scores => without_scores(block),
        Tail::Nothing => block.len(),
    }
}

/// Writes the bytes to this place, and answers the place behind them.
fn put(bytes: &[u8], into: &mut [u8], at: usize) -> usize
    requires { at + length bytes.now ≤ length into.old }
    ensures next { result ≡ at + length bytes.now }
    ensures front { take result into.new ≡ take at into.old ++ bytes.now }
{
    let end = at + bytes.len();
    into[at..end].copy_from_slice(bytes);
    end
}

fn fill_with_zeros(into: &mut [u8], from: usize)
    requires { from ≤ length into.old }
    ensures { into.new ≡ take from into.old ++ zeros (length into.old - from) }
{
    into[from..].fill(0);
}

fn fill_with_scores(into: &mut [u8], from: usize)
    requires { from ≤ length into.old }
    ensures { into.new ≡ take from into.old ++ nil_pointers (length into.old - from) }
{
    let mut at = from;
    while into.len() - at >= 20 {
        at = put(&EMPTY.0, into, at);
    }
    fill_with_zeros(into, at);
}

/// Fills the block with the bytes that were stored of it, and behind them with what was left out.
pub fn grow(kind: u8, bytes: &[u8], into: &mut [u8])
    requires { length bytes.now ≤ length into.old }
    ensures { into.new ≡ grown (tail_of kind) (length into.old) bytes.now }
{
    let end = put(bytes, into, 0);
    match tail_of(kind) {
        Tail::Scores => fill_with_scores(into, end),
        Tail::Zeros | Tail::Nothing => fill_with_zeros(into, end),
    }
}
