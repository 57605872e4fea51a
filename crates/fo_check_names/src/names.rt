//! The records of one directory, and the numbers of all files.
ghost use Rattle.std.specs.Prelude.{◌≡◌, ◌≢◌, ◌≤◌, ◌↔◌, ◌++◌, length, map, IsTrue, OnOk, MatchOption};
ghost use Rattle.std.specs.List.{All, Any, AllAdjacentBelow};
ghost use Rattle.std.specs.List.Sorted.{IsPermutation, IsNonDecreasingBy};
ghost use Rattle.fo_check_names.specs.Finds.{Finds, Misses, row_for};
ghost use Rattle.fo_check_names.specs.Names.{name_of, slot_of, leaf_of, IsPaired, IsUnpaired, Differ, IsTwice, number_of, holder_of, number_in, named_in, IsFileNumber, IsNoFile};

use fo_image::{Entry, Record};
use fo_rules::has_pair;
use std::alloc::AllocError;

/// A record of the directory in course.
#[derive(Drop)]
pub struct Named {
    pub listed: Record,
    /// The leaf that it stands in.
    pub leaf: u32,
    /// Whether its pair was found.
    pub found: bool,
    /// Whether its pair may be in a block that was entered from elsewhere.
    pub missed: bool,
}

/// Sorts the records by their names, and answers the leaf of one whose name another has.
pub fn same_name(named: &mut [Named]) -> Option<u32>
    ensures permutation { IsPermutation named.old named.new }
    ensures answer { MatchOption result (Differ name_of named.old) (IsTwice name_of leaf_of named.old) }
{
    named.sort_unstable_by(|a, b| a.listed.name.as_slice().cmp(b.listed.name.as_slice()));
    repeated_name(named)
}

/// The leaf of a record whose name the one before it has.
fn repeated_name(named: &[Named]) -> Option<u32>
    ensures { MatchOption result (AllAdjacentBelow (λ x y. name_of x ≢ name_of y) named.now (length named.now)) (IsTwice name_of leaf_of named.now) }
{
    for i in 1..named.len() {
        if named[i - 1].listed.name.as_slice() == named[i].listed.name.as_slice() {
            return Some(named[i].leaf);
        }
    }
    None
}

/// Sorts the records by their pairs, and answers the leaf of one whose pair another has.
pub fn same_pair(named: &mut [Named]) -> Option<u32>
    ensures permutation { IsPermutation named.old named.new }
    ensures sorted { IsNonDecreasingBy slot_of named.new }
    ensures answer { MatchOption result (Differ slot_of named.old) (IsTwice slot_of leaf_of named.old) }
{
    named.sort_unstable_by_key(|n| n.listed.slot);
    repeated_pair(named)
}

/// The leaf of a record whose pair the one before it has.
fn repeated_pair(named: &[Named]) -> Option<u32>
    ensures { MatchOption result (AllAdjacentBelow (λ x y. slot_of x ≢ slot_of y) named.now (length named.now)) (IsTwice slot_of leaf_of named.now) }
{
    for i in 1..named.len() {
        if named[i - 1].listed.slot == named[i].listed.slot {
            return Some(named[i].leaf);
        }
    }
    None
}

/// Marks the record of this slot pair, if any, with whether the two entries are its own, and answers that.
pub fn find_pair(named: &mut [Named], slot: u64, first: &Entry, second: &Entry) -> bool
    ensures { Finds slot first.now second.now result named.old named.new }
{
    let at = named.partition_point(|n| u64::from(n.listed.slot) < slot);
    if at == named.len() {
        return false;
    }
    if u64::from(named[at].listed.slot) != slot {
        return false;
    }
    let fits = has_pair(&named[at].listed, first, second);
    named[at].found = fits;
    fits
}

/// The number of the row of so many leaves of entries that has a record's pair.
fn row_of(n: &Named, count: u64) -> u64
    requires { 1 ≤ count }
    ensures { result ≡ row_for count n.now }
{
    u64::from(n.listed.slot / 102) / count
}

/// Marks the records whose pairs are in this row of so many leaves of entries, where a block was entered from elsewhere.
pub fn miss_pairs(named: &mut [Named], row: u64, count: u64)
    requires { 1 ≤ count }
    ensures { Misses row count named.old named.new }
{
    let mut at = named.partition_point(|n| u64::from(n.listed.slot / 102) / count < row);
    while at < named.len() {
        if row_of(&named[at], count) != row {
            return;
        }
        named[at].missed = true;
        at += 1;
    }
}

/// Whether the record's pair was found or missed, within the size of the entries.
fn is_paired(n: &Named, size: u64) -> bool
    ensures { IsTrue result ↔ IsPaired size n.now }
{
    (n.found || n.missed) && 8192 * u64::from(n.listed.slot / 102) < size
}

/// The leaf of a record whose pair was neither found nor missed within the size of the entries.
pub fn without_pair(named: &[Named], size: u64) -> Option<u32>
    ensures { MatchOption result (All (IsPaired size) named.now) (λ leaf. Any (IsUnpaired size leaf) named.now) }
{
    for n in named {
        if !is_paired(n, size) {
            return Some(n.leaf);
        }
    }
    None
}

/// A file number, and the leaf that has it.
#[derive(Clone, Copy)]
pub struct Number {
    pub number: u32,
    pub leaf: u32,
}

/// Whether a file may have this number: the root has number 0.
fn is_file(n: &Number, limit: u32) -> bool
    ensures { IsTrue result ↔ IsFileNumber limit n.now }
{
    0 < n.number && n.number < limit
}

/// The leaf of a number that no file may have.
pub fn no_file(found: &[Number], limit: u32) -> Option<u32>
    ensures { MatchOption result (All (IsFileNumber limit) found.now) (λ leaf. Any (IsNoFile limit leaf) found.now) }
{
    for n in found {
        if !is_file(n, limit) {
            return Some(n.leaf);
        }
    }
    None
}

/// Sorts the numbers, and answers the leaf of one that another file has.
pub fn same_number(found: &mut [Number]) -> Option<u32>
    ensures permutation { IsPermutation found.old found.new }
    ensures answer { MatchOption result (Differ number_of found.old) (IsTwice number_of holder_of found.old) }
{
    found.sort_unstable_by_key(|n| n.number);
    repeated_number(found)
}

/// The leaf of a number that the one before it is too.
fn repeated_number(found: &[Number]) -> Option<u32>
    ensures { MatchOption result (AllAdjacentBelow (λ x y. number_of x ≢ number_of y) found.now (length found.now)) (IsTwice number_of holder_of found.now) }
{
    for i in 1..found.len() {
        if found[i - 1].number == found[i].number {
            return Some(found[i].leaf);
        }
    }
    None
}

/// The numbers of these records, each with its leaf.
pub fn add_numbers(named: &[Named], numbers: &mut Vec<Number>) -> Result<(), AllocError>
    ensures { OnOk result (numbers.new.items ≡ numbers.old.items ++ map number_in named.now) }
{
    for n in named {
        numbers.push(Number {
            number: n.listed.number,
            leaf: n.leaf,
        })?;
    }
    Ok(())
}

/// More records, each with its leaf.
pub fn add_named(named: &mut Vec<Named>, records: Vec<Record>, leaf: u32) -> Result<(), AllocError>
    ensures { OnOk result (named.new.items ≡ named.old.items ++ map (named_in leaf) records.items) }
{
    for record in records {
        named.push(Named {
            listed: record,
            leaf,
            found: false,
            missed: false,
        })?;
    }
    Ok(())
}
