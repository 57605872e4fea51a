//! Records, whose length is part of them.
ghost use Rattle.std.specs.Prelude.{◌≡◌, ℕ, ◌+◌, ◌^◌, ◌<◌, ◌≤◌, ◌++◌, ◌↔◌, List, length, IsTrue, Some, IfOk, IfSome, IsSomeAnd};
ghost use Rattle.std.specs.List.{AllByRecursion};
ghost use Rattle.fo_image.specs.declared.record.Record.{Record};
ghost use Rattle.fo_image.specs.Field.{FieldFits, Text as TextField, spelled, spelling};
ghost use Rattle.fo_image.specs.declared.parts.Part.TheVariants.{Four as PartFour};
ghost use Rattle.fo_image.specs.Part.{parts_bytes};
ghost use Rattle.fo_image.specs.Record.{IsTextWithin, RecordHolds, SpellsRecord, ReadsInMemory, record_len, record_fields};

use crate::parts::{Part, is_spelled, u32_at, write_parts};
use crate::record::{Record, RecordError};
use crate::types::Bad;
use fo_base::{Bytes as Text, is_text};
use std::alloc::{AllocError, Global};

fn is_text_within(limit: usize, bytes: &[u8]) -> bool
    ensures { IsTrue result ↔ IsTextWithin limit bytes.now }
{
    1 <= bytes.len() && bytes.len() <= limit && is_text(bytes)
}

/// Whether the record has a spelling.
pub fn is_record(v: &Record) -> bool
    ensures { IsTrue result ↔ RecordHolds v.now }
{
    is_text_within(255, v.name.as_slice())
        && is_text_within(64, v.uid.as_slice())
        && is_text_within(64, v.gid.as_slice())
        && is_text_within(64, v.muid.as_slice())
}

/// How many bytes the whole record takes, at most 481.
pub fn record_len(v: &Record) -> usize
    requires { RecordHolds v.now }
    ensures is { result ≡ record_len v.now }
    ensures most { result ≤ 481 }
{
    34 + v.name.as_slice().len()
        + v.uid.as_slice().len()
        + v.gid.as_slice().len()
        + v.muid.as_slice().len()
}

fn len_of(text: &Text) -> u8
    requires { length text.now < 2 ^ 8 }
    ensures { result ≡ length text.now }
{
    text.as_slice().len() as u8
}

fn four(n: u32) -> Part<'static>
    ensures is { result ≡ PartFour n }
    ensures fits { n < 2 ^ 32 }
{
    Part::Four(n)
}

fn parts_of(v: &Record) -> [Part<'_>; 16]
    requires { RecordHolds v.now }
    ensures spelled { parts_bytes result ≡ spelling (record_fields v.now) }
    ensures fit { AllByRecursion FieldFits (record_fields v.now) }
{
    [
        Part::Two(record_len(v) as u16),
        four(v.number),
        four(v.slot),
        four(v.generation),
        four(v.vers),
        four(v.mode),
        four(v.atime),
        four(v.mtime),
        Part::One(len_of(&v.name)),
        Part::Bytes(v.name.as_slice()),
        Part::One(len_of(&v.uid)),
        Part::Bytes(v.uid.as_slice()),
        Part::One(len_of(&v.gid)),
        Part::Bytes(v.gid.as_slice()),
        Part::One(len_of(&v.muid)),
        Part::Bytes(v.muid.as_slice()),
    ]
}

/// Fills the slice, which is as long as the record, with the record.
pub fn write_record(v: &Record, into: &mut [u8])
    requires spelled { RecordHolds v.now }
    requires length { length into.old ≡ record_len v.now }
    ensures { SpellsRecord v.now into.new }
{
    write_parts(&parts_of(v), into);
}

/// The text at the front of the bytes, and what follows it.
fn text_at(bytes: &[u8]) -> Option<(&[u8], &[u8])>
    ensures { (text more : List ℕ) → length text < 2 ^ 8 → bytes.now ≡ spelled (TextField text) ++ more → IsSomeAnd result (λ p. (p.0.now ≡ text) × (p.1.now ≡ more)) }
{
    let [len, rest @ ..] = bytes else {
        return None;
    };
    let len = *len as usize;
    if rest.len() < len {
        return None;
    }
    Some(rest.split_at(len))
}

/// The texts of a record: its name, and the three users.
#[derive(Clone, Copy)]
struct Texts<'a> {
    name: &'a [u8],
    uid: &'a [u8],
    gid: &'a [u8],
    muid: &'a [u8],
}

/// The only texts that a record of these bytes can have.
fn texts_of(bytes: &[u8]) -> Option<Texts<'_>>
    ensures long { IfSome result (λ _. 30 ≤ length bytes.now) }
    ensures only { (r : Record) → SpellsRecord r bytes.now → IsSomeAnd result (λ t. (t.name.now ≡ r.name) × (t.uid.now ≡ r.uid) × (t.gid.now ≡ r.gid) × (t.muid.now ≡ r.muid)) }
{
    if bytes.len() < 30 {
        return None;
    }
    let (name, rest) = text_at(&bytes[30..])?;
    let (uid, rest) = text_at(rest)?;
    let (gid, rest) = text_at(rest)?;
    let (muid, _) = text_at(rest)?;
    Some(Texts {
        name,
        uid,
        gid,
        muid,
    })
}

/// The only record that these bytes can spell.
pub fn record_of(alloc: Global, bytes: &[u8]) -> Result<Option<Record>, AllocError>
    ensures { (r : Record) → SpellsRecord r bytes.now → IfOk result (λ read. read ≡ Some r) }
{
    let Some(texts) = texts_of(bytes) else {
        return Ok(None);
    };
    Ok(Some(Record {
        name: Text::copy_of(alloc, texts.name)?,
        number: u32_at(bytes, 2),
        slot: u32_at(bytes, 6),
        generation: u32_at(bytes, 10),
        vers: u32_at(bytes, 14),
        mode: u32_at(bytes, 18),
        atime: u32_at(bytes, 22),
        mtime: u32_at(bytes, 26),
        uid: Text::copy_of(alloc, texts.uid)?,
        gid: Text::copy_of(alloc, texts.gid)?,
        muid: Text::copy_of(alloc, texts.muid)?,
    }))
}

/// Whether the bytes spell the record.
fn is_record_at(v: &Record, bytes: &[u8]) -> bool
    ensures { IsTrue result ↔ SpellsRecord v.now bytes.now }
{
    if !is_record(v) {
        return false;
    }
    if bytes.len() != record_len(v) {
        return false;
    }
    is_spelled(&parts_of(v), bytes)
}

/// The record that the bytes spell, or `Bad::Entry` where they spell none.
pub fn read_record(alloc: Global, bytes: &[u8]) -> Result<Record, RecordError>
    ensures { ReadsInMemory (λ r. SpellsRecord r bytes.now) result }
{
    let Some(record) = record_of(alloc, bytes)? else {
        return Err(RecordError::Bad(Bad::Entry));
    };
    if is_record_at(&record, bytes) {
        Ok(record)
    } else {
        Err(RecordError::Bad(Bad::Entry))
    }
}
