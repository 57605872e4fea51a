//! Looks at a list of records.
ghost use Rattle.std.specs.Prelude.{◌≡◌, ◌≢◌, ◌++◌, ◌∷◌, [], List, true, false, MatchBool, MatchOption, Some, find};
ghost use Rattle.std.specs.List.{list_any};
ghost use Rattle.std.specs.Option.{option_copied};
ghost use Rattle.fo_image.specs.declared.record.Record.{Record};
ghost use Rattle.fo_meta.specs.Leaf.{is_named};
ghost use Rattle.fo_world.specs.Tree.{comes_before};
ghost use Rattle.fo_dir_list.specs.Next.{Answers};
ghost use Rattle.fo_dir_plain.specs.Calls.{HasName, LacksName, MayBear};
ghost use Rattle.fo_dir_plain.specs.Pairs.{has_pair, IsFull, IsLeastPair};
ghost use Rattle.fo_dir_plain.specs.Places.{IsPlace};

use fo_image::Record;

/// How many pairs a directory has at most.
const PAIRS: u32 = 1 << 20;

/// Whether a record has the name.
pub(crate) fn has_name(records: &[Record], name: &[u8]) -> bool
    ensures { result ≡ list_any (is_named name.now) records.now }
{
    records.iter().any(|named| named.name.as_slice() == name)
}

/// The first record of a name.
pub(crate) fn first<'a>(records: &'a [Record], name: &[u8]) -> Option<&'a Record>
    ensures { option_copied result ≡ find (is_named name.now) records.now }
{
    for named in records {
        if named.name.as_slice() == name {
            return Some(named);
        }
    }
    None
}

/// Where the first record of a name stands.
pub(crate) fn place_of(records: &[Record], name: &[u8]) -> Option<usize>
    ensures { MatchOption result (LacksName name.now records.now) (IsPlace name.now records.now) }
{
    for i in 0..records.len() {
        if records[i].name.as_slice() == name {
            return Some(i);
        }
    }
    None
}

/// Whether another record has the name that one of a name is to get.
pub(crate) fn is_taken(records: &[Record], name: &[u8], other: &[u8]) -> bool
    ensures { MatchBool result ((other.now ≢ name.now) × HasName other.now records.now) (MayBear records.now name.now other.now) }
{
    if other == name {
        return false;
    }
    has_name(records, other)
}

/// Whether a name comes before another, byte by byte.
fn comes_before(name: &[u8], other: &[u8]) -> bool
    ensures { result ≡ comes_before name.now other.now }
{
    name.cmp(&other).is_lt()
}

/// Whether the name comes before that of the best record so far, if there is one.
fn is_lesser(name: &[u8], best: Option<&Record>) -> bool
    ensures { MatchOption (option_copied best.entry) (result ≡ true) (λ old. result ≡ comes_before name.now old.name) }
{
    match best {
        None => true,
        Some(old) => comes_before(name, old.name.as_slice()),
    }
}

/// Of the best record so far and one more the one of the lesser name after this one.
fn better<'a>(after: &[u8], best: Option<&'a Record>, found: &'a Record) -> Option<&'a Record>
    ensures { (front : List Record) → Answers after.now front (option_copied best.entry) → Answers after.now (front ++ found.now ∷ []) (option_copied result) }
{
    if !comes_before(after, found.name.as_slice()) {
        return best;
    }
    if !is_lesser(found.name.as_slice(), best) {
        return best;
    }
    Some(found)
}

/// A record of the least name after this one.
pub(crate) fn next<'a>(records: &'a [Record], after: &[u8]) -> Option<&'a Record>
    ensures { Answers after.now records.now (option_copied result) }
{
    let mut best = None;
    for found in records {
        best = better(after, best, found);
    }
    best
}

/// Whether a record has the pair.
fn has_pair(records: &[Record], k: u32) -> bool
    ensures { result ≡ list_any (has_pair k) records.now }
{
    records.iter().any(|named| named.slot == k)
}

/// The least free pair.
pub(crate) fn free_pair(records: &[Record]) -> Option<u32>
    ensures { MatchOption result (IsFull records.now) (IsLeastPair records.now) }
{
    for k in 0..PAIRS {
        if !has_pair(records, k) {
            return Some(k);
        }
    }
    None
}
