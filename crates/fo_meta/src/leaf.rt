//! Records found, added, taken out and replaced in the bytes of a leaf.
ghost use Rattle.std.specs.Prelude.{◌≡◌, ℕ, ◌+◌, ◌^◌, ◌<◌, ◌≤◌, ◌∷◌, [], ◌++◌, List, false, length, drop, find, IfSome, MatchOption, MatchResult, OnErr};
ghost use Rattle.std.specs.List.{list_any};
ghost use Rattle.fo_image.specs.declared.record.Record.{Record};
ghost use Rattle.fo_image.specs.Field.{Two, number};
ghost use Rattle.fo_image.specs.Record.{RecordHolds, record_len};
ghost use Rattle.fo_meta.specs.Leaf.{HasSpelling, SpellsLeaf, IsLeaf, BeginsRecord, Placed, is_named, record_bytes, records_bytes, without};

use crate::error::MetaError;
use fo_image::{BLOCK, Record, read_record, record_len, u16_at, write_record};
use std::alloc::Global;

/// The end of the record at this place, and its name.
fn record_at(leaf: &[u8], at: usize) -> (usize, &[u8])
    requires { BeginsRecord leaf.now at }
    ensures { (r : Record) (more : List ℕ) → HasSpelling r → drop at leaf.now ≡ record_bytes r ++ more → (result.0 ≡ at + record_len r) × (result.1.now ≡ r.name) }
{
    let len = leaf[at + 30] as usize;
    let name = &leaf[at + 31..at + 31 + len];
    (at + u16_at(leaf, at) as usize, name)
}

/// Where the first record of this name stands: its first byte, and the one after its last.
fn place_of(leaf: &[u8], name: &[u8]) -> Option<(usize, usize)>
    requires { IsLeaf leaf.now }
    ensures place { (rs : List Record) → SpellsLeaf rs leaf.now → MatchOption result (list_any (is_named name.now) rs ≡ false) (Placed name.now rs) }
    ensures within { IfSome result (λ place. (place.0 < place.1) × (place.1 ≤ length leaf.now)) }
{
    let mut at = 4;
    'records: for _ in 0..u16_at(leaf, 0) {
        let (end, found) = record_at(leaf, at);
        if found == name {
            return Some((at, end));
        }
        at = end;
    }
    None
}

fn write_head(leaf: &mut [u8], count: u16, used: u16)
    requires { 4 ≤ length leaf.old }
    ensures { leaf.new ≡ number Two count ++ (number Two used ++ drop 4 leaf.old) }
{
    leaf[..2].copy_from_slice(&count.to_be_bytes());
    leaf[2..4].copy_from_slice(&used.to_be_bytes());
}

/// A leaf of no records.
pub fn empty_leaf() -> [u8; BLOCK]
    ensures { SpellsLeaf [] result }
{
    [0; BLOCK]
}

/// The first record of the leaf that has this name, if one has it.
pub fn find(alloc: Global, leaf: &[u8], name: &[u8]) -> Result<Option<Record>, MetaError>
    requires { IsLeaf leaf.now }
    ensures { (rs : List Record) → SpellsLeaf rs leaf.now → MatchResult result (λ found. found ≡ find (is_named name.now) rs) (λ e. e ≡ MetaError.Memory) }
{
    let Some((at, end)) = place_of(leaf, name) else {
        return Ok(None);
    };
    match read_record(alloc, &leaf[at..end]) {
        Ok(record) => Ok(Some(record)),
        Err(_) => Err(MetaError::Memory),
    }
}

/// Adds the record at the end of the leaf, or answers `NoRoom` and leaves the leaf.
pub fn insert(leaf: &mut [u8], r: &Record) -> Result<(), MetaError>
    requires leaf { IsLeaf leaf.old }
    requires spelled { RecordHolds r.now }
    ensures added { (rs : List Record) → SpellsLeaf rs leaf.old → MatchResult result (λ _. SpellsLeaf (rs ++ r.now ∷ []) leaf.new) (λ e. (e ≡ MetaError.NoRoom) × (8188 < length (records_bytes rs) + record_len r.now)) }
    ensures stays { OnErr result (leaf.new ≡ leaf.old) }
    ensures leaf { IsLeaf leaf.new }
{
    let (count, used) = (u16_at(leaf, 0), u16_at(leaf, 2) as usize);
    let len = record_len(r);
    let at = 4 + used;
    if BLOCK < at + len {
        return Err(MetaError::NoRoom);
    }
    write_record(r, &mut leaf[at..at + len]);
    write_head(leaf, count + 1, (used + len) as u16);
    Ok(())
}

/// Takes the first record of this name out, closes up the leaf, and answers whether there was one.
pub fn remove(leaf: &mut [u8], name: &[u8]) -> bool
    requires { IsLeaf leaf.old }
    ensures removed { (rs : List Record) → SpellsLeaf rs leaf.old → (result ≡ list_any (is_named name.now) rs) × SpellsLeaf (without name.now rs) leaf.new }
    ensures leaf { IsLeaf leaf.new }
{
    let Some((at, end)) = place_of(leaf, name) else {
        return false;
    };
    let (count, used) = (u16_at(leaf, 0), u16_at(leaf, 2) as usize);
    let len = end - at;
    leaf[at..end].fill(0);
    leaf[at..].rotate_left(len);
    write_head(leaf, count - 1, (used - len) as u16);
    true
}

/// How many bytes the records take without the first of this name.
fn kept_len(leaf: &[u8], name: &[u8]) -> usize
    requires { IsLeaf leaf.now }
    ensures is { (rs : List Record) → SpellsLeaf rs leaf.now → result ≡ length (records_bytes (without name.now rs)) }
    ensures small { result < 2 ^ 16 }
{
    let used = u16_at(leaf, 2) as usize;
    match place_of(leaf, name) {
        None => used,
        Some((at, end)) => used - (end - at),
    }
}

/// Takes the first record of this name out and adds the record at the end, or answers `NoRoom` and leaves the leaf.
pub fn replace(leaf: &mut [u8], name: &[u8], r: &Record) -> Result<(), MetaError>
    requires leaf { IsLeaf leaf.old }
    requires spelled { RecordHolds r.now }
    ensures replaced { (rs : List Record) → SpellsLeaf rs leaf.old → MatchResult result (λ _. SpellsLeaf (without name.now rs ++ r.now ∷ []) leaf.new) (λ e. (e ≡ MetaError.NoRoom) × (8188 < length (records_bytes (without name.now rs)) + record_len r.now)) }
    ensures stays { OnErr result (leaf.new ≡ leaf.old) }
    ensures leaf { IsLeaf leaf.new }
{
    if BLOCK < 4 + kept_len(leaf, name) + record_len(r) {
        return Err(MetaError::NoRoom);
    }
    let _ = remove(leaf, name);
    insert(leaf, r)
}
