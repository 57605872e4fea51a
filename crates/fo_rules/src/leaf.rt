//! A leaf of records, read from any bytes.
ghost use Rattle.std.specs.Prelude.{◌≡◌, ◌≤◌, ◌↔◌, ℕ, List, length, take, drop, IsTrue, IfOk, MatchOption};
ghost use Rattle.fo_image.specs.declared.record.Record.{Record};
ghost use Rattle.fo_image.specs.Field.{Two, number};
ghost use Rattle.fo_meta.specs.Leaf.{IsLeaf, SpellsLeaf};
ghost use Rattle.fo_rules.specs.Leaf.{IsFront, AreRecords};

use fo_image::{Record, RecordError, is_zero, read_record, u16_at};
use std::alloc::{AllocError, Global};

/// The record at the front of these bytes, and what comes after it.
fn read_front(alloc: Global, bytes: &[u8]) -> Result<Option<(Record, &[u8])>, AllocError>
    ensures { IfOk result (λ found. MatchOption found ((r : Record) (more : List ℕ) → ¬ IsFront bytes.now r more) (λ p. IsFront bytes.now p.0 p.1.now)) }
{
    if bytes.len() < 2 {
        return Ok(None);
    }
    let len = u16_at(bytes, 0) as usize;
    if bytes.len() < len {
        return Ok(None);
    }
    match read_record(alloc, &bytes[..len]) {
        Ok(record) => Ok(Some((record, &bytes[len..]))),
        Err(RecordError::Bad(_)) => Ok(None),
        Err(RecordError::Memory) => Err(AllocError),
    }
}

/// So many records one after the other, which are all of these bytes.
fn read_records(alloc: Global, count: u16, bytes: &[u8]) -> Result<Option<Vec<Record>>, AllocError>
    ensures { IfOk result (λ found. MatchOption found ((rs : List Record) → ¬ AreRecords count bytes.now rs) (λ v. AreRecords count bytes.now v.items)) }
{
    let mut records = Vec::new(alloc);
    let mut rest = bytes;
    'records: for _ in 0..count {
        let front = read_front(alloc, rest)?;
        let Some((record, more)) = front else {
            return Ok(None);
        };
        records.push(record)?;
        rest = more;
    }
    if rest.is_empty() {
        Ok(Some(records))
    } else {
        Ok(None)
    }
}

/// Whether the block begins with these two numbers.
fn is_head(leaf: &[u8], count: u16, used: u16) -> bool
    requires { 4 ≤ length leaf.now }
    ensures { IsTrue result ↔ ((take 2 leaf.now ≡ number Two count) × (take 2 (drop 2 leaf.now) ≡ number Two used)) }
{
    let (first, second) = (count.to_be_bytes(), used.to_be_bytes());
    leaf[..2] == first[..] && leaf[2..4] == second[..]
}

/// The records that a block spells, or none where it spells none.
pub fn read_leaf(alloc: Global, leaf: &[u8]) -> Result<Option<Vec<Record>>, AllocError>
    requires { length leaf.now ≡ 8192 }
    ensures { IfOk result (λ found. MatchOption found (¬ IsLeaf leaf.now) (λ v. SpellsLeaf v.items leaf.now)) }
{
    let (count, used) = (u16_at(leaf, 0), u16_at(leaf, 2));
    let end = 4 + used as usize;
    if 8192 < end || !is_zero(&leaf[end..]) {
        return Ok(None);
    }
    if !is_head(leaf, count, used) {
        return Ok(None);
    }
    read_records(alloc, count, &leaf[4..end])
}
