//! A list of records is changed.
ghost use Rattle.std.specs.Prelude.{◌≡◌, ◌<◌, ℕ, List, IfOk, IfErr, MatchResult, OnErr, OnOk, vec_len, vec_capacity};
ghost use Rattle.fo_meta.specs.Leaf.{without};
ghost use Rattle.fo_dir_plain.specs.Calls.{HasName, IsAdded, IsChanged, LacksName, MayBear, RefusesAdd, RefusesChange, RefusesRemove};
ghost use Rattle.fo_dir_plain.specs.Pairs.{IsLeastPair};
ghost use Rattle.fo_dir_plain.specs.Places.{IsPlace};

use crate::list::{free_pair, has_name, is_taken, place_of};
use crate::refusal::Refusal;
use fo_base::Bytes;
use fo_image::Record;

/// The record with this pair.
fn with_pair(named: Record, k: u32) -> Record
    ensures { result ≡ record named { slot = k } }
{
    Record { slot: k, ..named }
}

/// The record with this name.
fn with_name(named: Record, name: Bytes) -> Record
    ensures { result ≡ record named { name = name } }
{
    let mut named = named;
    named.name = name;
    named
}

/// The pair that a new record of this name is to have, or why there may be none.
fn pair_for(records: &[Record], name: &[u8]) -> Result<u32, Refusal>
    ensures { MatchResult result (λ k. IsLeastPair records.now k × LacksName name.now records.now) (RefusesAdd records.now name.now) }
{
    if has_name(records, name) {
        return Err(Refusal::Exists);
    }
    match free_pair(records) {
        Some(k) => Ok(k),
        None => Err(Refusal::Full),
    }
}

/// Adds a record at the end, with the least free pair.
pub(crate) fn add(records: &mut Vec<Record>, named: Record) -> Result<u32, Refusal>
    ensures added { IfOk result (λ k. IsAdded named k records.old.items records.new.items) }
    ensures refused { IfErr result (RefusesAdd records.old.items named.name) }
    ensures stays { OnErr result (records.new.items ≡ records.old.items) }
{
    let k = pair_for(records, named.name.as_slice())?;
    match records.push(with_pair(named, k)) {
        Ok(()) => Ok(k),
        Err(_) => Err(Refusal::Memory),
    }
}

/// Takes the first record of a name out.
pub(crate) fn remove(records: &mut Vec<Record>, name: &[u8]) -> Result<(), Refusal>
    ensures removed { OnOk result (HasName name.now records.old.items × (records.new.items ≡ without name.now records.old.items)) }
    ensures refused { IfErr result (RefusesRemove records.old.items name.now) }
    ensures stays { OnErr result (records.new.items ≡ records.old.items) }
{
    let Some(i) = place_of(records, name) else {
        return Err(Refusal::Absent);
    };
    let _ = records.remove(i);
    Ok(())
}

/// Where the record of a name stands that may get another one, or why it may not.
fn place_for(records: &[Record], name: &[u8], other: &[u8]) -> Result<usize, Refusal>
    ensures { MatchResult result (λ i. IsPlace name.now records.now i × MayBear records.now name.now other.now) (RefusesChange records.now name.now other.now) }
{
    let Some(i) = place_of(records, name) else {
        return Err(Refusal::Absent);
    };
    if is_taken(records, name, other) {
        return Err(Refusal::Exists);
    }
    Ok(i)
}

/// Takes the record at a place out, and puts it at the end with another name.
fn change_at(records: &mut Vec<Record>, i: usize, other: Bytes)
    requires within { i < vec_len records.old }
    requires room { vec_len records.old < vec_capacity records.old }
    ensures { (name : List ℕ) → IsPlace name records.old.items i → IsChanged name other records.old.items records.new.items }
{
    let named = records.remove(i);
    records.push_reserved(with_name(named, other));
}

/// Takes the first record of a name out, and puts it at the end with another name.
pub(crate) fn change(records: &mut Vec<Record>, name: &[u8], other: Bytes) -> Result<(), Refusal>
    ensures changed { OnOk result (IsChanged name.now other records.old.items records.new.items × MayBear records.old.items name.now other) }
    ensures refused { IfErr result (RefusesChange records.old.items name.now other) }
    ensures stays { OnErr result (records.new.items ≡ records.old.items) }
{
    let i = place_for(records, name, other.as_slice())?;
    if records.reserve(1).is_err() {
        return Err(Refusal::Memory);
    }
    change_at(records, i, other);
    Ok(())
}
