//! Fields read from the front of bytes: each gives its value and the bytes after it.
ghost use Rattle.std.specs.Prelude.{◌≡◌};
ghost use Rattle.nine_fields.specs.Field.{One, Two, Four, Eight};
ghost use Rattle.nine_fields.specs.Reading.{Reads, Gives, number_at, part_at, text_at, block_at, qid_at, names_at, texts_at, ids_at, qids_at, record_at, brief_at};

use crate::error::{Malformed, ReadError};
use crate::lists::{Names, Qids};
use crate::qid::Qid;
use crate::stat::stat_at;
use fo_base::{Bytes, is_text};
use std::alloc::Global;

/// The most bytes that the text of an error has.
pub const LONGEST_ERROR: usize = 128;

/// A number of one byte.
#[tactic(auto, unfolding(crate::specs::Reading::number_at))]
pub fn u8_at(bytes: &[u8]) -> Result<(u8, &[u8]), Malformed>
    ensures { Reads (λ x. (x.0, x.1.now)) result (number_at One bytes.now) }
{
    match bytes {
        [] => Err(Malformed),
        [number, rest @ ..] => Ok((*number, rest)),
    }
}

/// A number of two bytes.
#[tactic(auto, unfolding(crate::specs::Reading::number_at))]
pub fn u16_at(bytes: &[u8]) -> Result<(u16, &[u8]), Malformed>
    ensures { Reads (λ x. (x.0, x.1.now)) result (number_at Two bytes.now) }
{
    if bytes.len() < 2 {
        return Err(Malformed);
    }
    let (front, rest) = bytes.split_at(2);
    Ok((u16::from_le_bytes([front[0], front[1]]), rest))
}

/// A number of four bytes.
#[tactic(auto, unfolding(crate::specs::Reading::number_at))]
pub fn u32_at(bytes: &[u8]) -> Result<(u32, &[u8]), Malformed>
    ensures { Reads (λ x. (x.0, x.1.now)) result (number_at Four bytes.now) }
{
    if bytes.len() < 4 {
        return Err(Malformed);
    }
    let (front, rest) = bytes.split_at(4);
    let number = u32::from_le_bytes([front[0], front[1], front[2], front[3]]);
    Ok((number, rest))
}

/// A number of eight bytes.
#[tactic(auto, unfolding(crate::specs::Reading::number_at))]
pub fn u64_at(bytes: &[u8]) -> Result<(u64, &[u8]), Malformed>
    ensures { Reads (λ x. (x.0, x.1.now)) result (number_at Eight bytes.now) }
{
    if bytes.len() < 8 {
        return Err(Malformed);
    }
    let (front, rest) = bytes.split_at(8);
    let number = u64::from_le_bytes([
        front[0], front[1], front[2], front[3], front[4], front[5], front[6], front[7],
    ]);
    Ok((number, rest))
}

/// So many bytes.
#[tactic(auto, unfolding(crate::specs::Reading::part_at))]
fn part_at(bytes: &[u8], len: usize) -> Result<(&[u8], &[u8]), Malformed>
    ensures { Reads (λ x. (x.0.now, x.1.now)) result (part_at len bytes.now) }
{
    if bytes.len() < len {
        return Err(Malformed);
    }
    Ok(bytes.split_at(len))
}

/// Bytes behind their number in two bytes.
#[tactic(auto, unfolding(crate::specs::Reading::block_at))]
pub fn block_at(bytes: &[u8]) -> Result<(&[u8], &[u8]), Malformed>
    ensures { Reads (λ x. (x.0.now, x.1.now)) result (block_at Two bytes.now) }
{
    let (len, rest) = u16_at(bytes)?;
    part_at(rest, len as usize)
}

/// Bytes behind their number in four bytes.
#[tactic(auto, unfolding(crate::specs::Reading::block_at))]
pub fn data_at(bytes: &[u8]) -> Result<(&[u8], &[u8]), Malformed>
    ensures { Reads (λ x. (x.0.now, x.1.now)) result (block_at Four bytes.now) }
{
    let (len, rest) = u32_at(bytes)?;
    part_at(rest, len as usize)
}

/// A string: bytes behind their number in two bytes, UTF-8 without NUL.
#[tactic(auto, unfolding(crate::specs::Reading::text_at))]
pub fn text_at(bytes: &[u8]) -> Result<(&[u8], &[u8]), Malformed>
    ensures { Reads (λ x. (x.0.now, x.1.now)) result (text_at bytes.now) }
{
    let (text, rest) = block_at(bytes)?;
    if is_text(text) {
        Ok((text, rest))
    } else {
        Err(Malformed)
    }
}

/// A string of at most 128 bytes, as an error has.
#[tactic(auto, unfolding(crate::specs::Reading::brief_at))]
pub fn brief_at(bytes: &[u8]) -> Result<(&[u8], &[u8]), Malformed>
    ensures { Reads (λ x. (x.0.now, x.1.now)) result (brief_at bytes.now) }
{
    let (text, rest) = text_at(bytes)?;
    if LONGEST_ERROR < text.len() {
        return Err(Malformed);
    }
    Ok((text, rest))
}

/// A qid.
#[tactic(auto, unfolding(crate::specs::Reading::qid_at))]
pub fn qid_at(bytes: &[u8]) -> Result<(Qid, &[u8]), Malformed>
    ensures { Reads (λ x. (x.0, x.1.now)) result (qid_at bytes.now) }
{
    let (kind, rest) = u8_at(bytes)?;
    let (vers, rest) = u32_at(rest)?;
    let (path, rest) = u64_at(rest)?;
    Ok((Qid { kind, vers, path }, rest))
}

/// A stat record behind the number of its bytes in two bytes, with nothing else between.
#[tactic(auto, unfolding(crate::specs::Reading::record_at))]
pub fn record_at(bytes: &[u8]) -> Result<(&[u8], &[u8]), Malformed>
    ensures { Reads (λ x. (x.0.now, x.1.now)) result (record_at bytes.now) }
{
    let (record, rest) = block_at(bytes)?;
    stat_at(record)?;
    Ok((record, rest))
}

/// So many strings.
fn texts_at(alloc: Global, count: u16, bytes: &[u8]) -> Result<(Vec<Bytes>, &[u8]), ReadError>
    ensures { Gives (λ x. (x.0.items, x.1.now)) result (names_at count bytes.now) }
{
    let mut names = Vec::new(alloc);
    let mut rest = bytes;
    'names: for _ in 0..count {
        let (name, after) = text_at(rest)?;
        names.push(Bytes::copy_of(alloc, name)?)?;
        rest = after;
    }
    Ok((names, rest))
}

/// Strings behind their number in two bytes.
#[tactic(auto, unfolding(crate::specs::Reading::texts_at))]
pub fn names_at(alloc: Global, bytes: &[u8]) -> Result<(Names, &[u8]), ReadError>
    ensures { Gives (λ x. (x.0, x.1.now)) result (texts_at bytes.now) }
{
    let (count, rest) = u16_at(bytes)?;
    let (names, rest) = texts_at(alloc, count, rest)?;
    Ok((Names::new(names), rest))
}

/// So many qids.
fn ids_at(alloc: Global, count: u16, bytes: &[u8]) -> Result<(Vec<Qid>, &[u8]), ReadError>
    ensures { Gives (λ x. (x.0.items, x.1.now)) result (ids_at count bytes.now) }
{
    let mut qids = Vec::new(alloc);
    let mut rest = bytes;
    'qids: for _ in 0..count {
        let (qid, after) = qid_at(rest)?;
        qids.push(qid)?;
        rest = after;
    }
    Ok((qids, rest))
}

/// Qids behind their number in two bytes.
#[tactic(auto, unfolding(crate::specs::Reading::qids_at))]
pub fn qids_at(alloc: Global, bytes: &[u8]) -> Result<(Qids, &[u8]), ReadError>
    ensures { Gives (λ x. (x.0, x.1.now)) result (qids_at bytes.now) }
{
    let (count, rest) = u16_at(bytes)?;
    let (qids, rest) = ids_at(alloc, count, rest)?;
    Ok((Qids::new(qids), rest))
}
