//! Whether bytes spell a record, without memory.
ghost use Rattle.std.specs.Prelude.{◌≡◌, ℕ, ◌+◌, ◌^◌, ◌<◌, ◌≤◌, ◌++◌, ◌↔◌, List, length, IsTrue, IfSome, IsSomeAnd, codes};
ghost use Rattle.std.specs.List.{AllByRecursion};
ghost use Rattle.fo_image.specs.declared.record.Record.{Record};
ghost use Rattle.fo_image.specs.Field.{FieldFits, Text as TextField, spelled, spelling};
ghost use Rattle.fo_image.specs.declared.parts.Part.TheVariants.{Four as PartFour};
ghost use Rattle.fo_image.specs.Part.{parts_bytes};
ghost use Rattle.fo_image.specs.Record.{IsTextWithin, RecordHolds, RootRecordHolds, SpellsRecord, record_len, record_fields};
ghost use Rattle.fo_slots.specs.Seen.{as_record};
ghost use Rattle.fo_slots.specs.Formed.{IsRecord, IsRootRecord};

use fo_image::{Part, is_spelled, is_text, u32_at};

/// A record as it stands in bytes.
#[derive(Clone, Copy)]
pub struct Seen<'a> {
    pub name: &'a [u8],
    pub number: u32,
    pub slot: u32,
    pub generation: u32,
    pub vers: u32,
    pub mode: u32,
    pub atime: u32,
    pub mtime: u32,
    pub uid: &'a [u8],
    pub gid: &'a [u8],
    pub muid: &'a [u8],
}

fn is_text_within(limit: usize, bytes: &[u8]) -> bool
    ensures { IsTrue result ↔ IsTextWithin limit bytes.now }
{
    1 <= bytes.len() && bytes.len() <= limit && is_text(bytes)
}

/// Whether the record has a spelling.
fn holds(v: &Seen) -> bool
    ensures { IsTrue result ↔ RecordHolds (as_record v.now) }
{
    is_text_within(255, v.name)
        && is_text_within(64, v.uid)
        && is_text_within(64, v.gid)
        && is_text_within(64, v.muid)
}

/// How many bytes the whole record takes.
fn len_of(v: &Seen) -> usize
    requires { RecordHolds (as_record v.now) }
    ensures is { result ≡ record_len (as_record v.now) }
    ensures most { result ≤ 481 }
{
    34 + v.name.len() + v.uid.len() + v.gid.len() + v.muid.len()
}

fn short(text: &[u8]) -> u8
    requires { length text.now < 2 ^ 8 }
    ensures { result ≡ length text.now }
{
    text.len() as u8
}

fn four(n: u32) -> Part<'static>
    ensures is { result ≡ PartFour n }
    ensures fits { n < 2 ^ 32 }
{
    Part::Four(n)
}

fn parts_of<'a>(v: &Seen<'a>) -> [Part<'a>; 16]
    requires { RecordHolds (as_record v.now) }
    ensures spelled { parts_bytes result ≡ spelling (record_fields (as_record v.now)) }
    ensures fit { AllByRecursion FieldFits (record_fields (as_record v.now)) }
{
    [
        Part::Two(len_of(v) as u16),
        four(v.number),
        four(v.slot),
        four(v.generation),
        four(v.vers),
        four(v.mode),
        four(v.atime),
        four(v.mtime),
        Part::One(short(v.name)),
        Part::Bytes(v.name),
        Part::One(short(v.uid)),
        Part::Bytes(v.uid),
        Part::One(short(v.gid)),
        Part::Bytes(v.gid),
        Part::One(short(v.muid)),
        Part::Bytes(v.muid),
    ]
}

/// Whether the bytes spell the record.
fn is_at(v: &Seen, bytes: &[u8]) -> bool
    ensures { IsTrue result ↔ SpellsRecord (as_record v.now) bytes.now }
{
    if !holds(v) {
        return false;
    }
    if bytes.len() != len_of(v) {
        return false;
    }
    is_spelled(&parts_of(v), bytes)
}

/// The text at the front of the bytes, and what follows it.
fn text_at(bytes: &[u8]) -> Option<(&[u8], &[u8])>
    ensures { (text more : List ℕ) → length text < 2 ^ 8 → bytes.now ≡ spelled (TextField text) ++ more → IsSomeAnd result (λ p. (p.0.now ≡ text) × (p.1.now ≡ more)) }
{
    let [len, rest @ ..] = bytes else {
        return None;
    };
    let len = *len as usize;
    if rest.len() < len {
        return None;
    }
    Some(rest.split_at(len))
}

/// The texts of a record: its name, and the three users.
#[derive(Clone, Copy)]
struct Texts<'a> {
    name: &'a [u8],
    uid: &'a [u8],
    gid: &'a [u8],
    muid: &'a [u8],
}

/// The only texts that a record of these bytes can have.
fn texts_of(bytes: &[u8]) -> Option<Texts<'_>>
    ensures long { IfSome result (λ _. 30 ≤ length bytes.now) }
    ensures only { (r : Record) → SpellsRecord r bytes.now → IsSomeAnd result (λ t. (t.name.now ≡ r.name) × (t.uid.now ≡ r.uid) × (t.gid.now ≡ r.gid) × (t.muid.now ≡ r.muid)) }
{
    if bytes.len() < 30 {
        return None;
    }
    let (name, rest) = text_at(&bytes[30..])?;
    let (uid, rest) = text_at(rest)?;
    let (gid, rest) = text_at(rest)?;
    let (muid, _) = text_at(rest)?;
    Some(Texts {
        name,
        uid,
        gid,
        muid,
    })
}

/// The only record that these bytes can spell.
fn seen_in(bytes: &[u8]) -> Option<Seen<'_>>
    ensures { (r : Record) → SpellsRecord r bytes.now → IsSomeAnd result (λ s. as_record s ≡ r) }
{
    let Some(texts) = texts_of(bytes) else {
        return None;
    };
    Some(Seen {
        name: texts.name,
        number: u32_at(bytes, 2),
        slot: u32_at(bytes, 6),
        generation: u32_at(bytes, 10),
        vers: u32_at(bytes, 14),
        mode: u32_at(bytes, 18),
        atime: u32_at(bytes, 22),
        mtime: u32_at(bytes, 26),
        uid: texts.uid,
        gid: texts.gid,
        muid: texts.muid,
    })
}

/// Whether the bytes spell a record.
pub fn has_record(bytes: &[u8]) -> bool
    ensures { IsTrue result ↔ IsRecord bytes.now }
{
    let Some(seen) = seen_in(bytes) else {
        return false;
    };
    is_at(&seen, bytes)
}

/// Whether this is the record of a root directory.
fn is_root(v: &Seen) -> bool
    ensures { IsTrue result ↔ RootRecordHolds (as_record v.now) }
{
    holds(v) && v.name == b"/".as_slice() && v.number == 0 && v.slot == 0 && v.generation == 0
}

/// Whether the bytes spell the record of a root directory.
pub fn has_root_record(bytes: &[u8]) -> bool
    ensures { IsTrue result ↔ IsRootRecord bytes.now }
{
    let Some(seen) = seen_in(bytes) else {
        return false;
    };
    if !is_root(&seen) {
        return false;
    }
    is_at(&seen, bytes)
}
