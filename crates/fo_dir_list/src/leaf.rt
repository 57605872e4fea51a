//! The records of a leaf, one after the other.
ghost use Rattle.std.specs.Prelude.{◌≡◌, ◌+◌, ◌≤◌, [], ◌∷◌, ◌++◌, ℕ, List, true, length, drop, IfOk, IfErr, IfSome, Option, Some, None, MatchOption};
ghost use Rattle.fo_image.specs.declared.record.Record.{Record};
ghost use Rattle.fo_image.specs.Record.{RecordHolds, record_len};
ghost use Rattle.fo_meta.specs.Leaf.{HasSpelling, SpellsLeaf, IsLeaf, BeginsRecord, record_bytes, records_bytes};
ghost use Rattle.fo_ports.specs.declared.error.BlockError.TheVariants.{Memory};
ghost use Rattle.fo_world.specs.Tree.{comes_before};
ghost use Rattle.fo_dir_list.specs.Next.{IsLater, Answers, StandsAt, NextStands};

use fo_image::{Record, read_record, u16_at};
use fo_ports::BlockError;
use std::alloc::Global;

/// The end of the record at this place, and its name.
fn record_at(leaf: &[u8], at: usize) -> (usize, &[u8])
    requires { BeginsRecord leaf.now at }
    ensures { (r : Record) (more : List ℕ) → HasSpelling r → drop at leaf.now ≡ record_bytes r ++ more → (result.0 ≡ at + record_len r) × (result.1.now ≡ r.name) }
{
    let len = leaf[at + 30] as usize;
    let name = &leaf[at + 31..at + 31 + len];
    (at + u16_at(leaf, at) as usize, name)
}

/// Whether a name comes before another, byte by byte.
pub fn comes_before(name: &[u8], other: &[u8]) -> bool
    ensures { result ≡ comes_before name.now other.now }
{
    name.cmp(&other).is_lt()
}

/// Whether the name comes before that of the record at this place, if there is one.
fn is_nearer(leaf: &[u8], name: &[u8], best: Option<(usize, usize)>) -> bool
    requires { IfSome best (λ place. BeginsRecord leaf.now place.0) }
    ensures { MatchOption best (result ≡ true) (λ place. (r : Record) → StandsAt leaf.now place r → result ≡ comes_before name.now r.name) }
{
    match best {
        None => true,
        Some(place) => {
            let (_, found) = record_at(leaf, place.0);
            comes_before(name, found)
        }
    }
}

/// The better one of a place and that of the record at another, and the end of that record.
fn better(
    leaf: &[u8],
    after: &[u8],
    best: Option<(usize, usize)>,
    at: usize,
) -> (usize, Option<(usize, usize)>)
    requires here { BeginsRecord leaf.now at }
    requires best { IfSome best (λ place. BeginsRecord leaf.now place.0) }
    ensures end { (r : Record) (more : List ℕ) → HasSpelling r → drop at leaf.now ≡ record_bytes r ++ more → result.0 ≡ at + record_len r }
    ensures best { (front : List Record) (r : Record) (more : List ℕ) → HasSpelling r → drop at leaf.now ≡ record_bytes r ++ more → NextStands leaf.now after.now front best → NextStands leaf.now after.now (front ++ r ∷ []) result.1 }
{
    let (end, name) = record_at(leaf, at);
    if !comes_before(after, name) {
        return (end, best);
    }
    if !is_nearer(leaf, name, best) {
        return (end, best);
    }
    (end, Some((at, end)))
}

/// Where a record of the least name after this one stands: its first byte, and the one after its last.
fn place_after(leaf: &[u8], after: &[u8]) -> Option<(usize, usize)>
    requires { IsLeaf leaf.now }
    ensures next { (rs : List Record) → SpellsLeaf rs leaf.now → NextStands leaf.now after.now rs result }
    ensures within { IfSome result (λ place. (place.0 ≤ place.1) × (place.1 ≤ length leaf.now)) }
{
    let mut best = None;
    let mut at = 4;
    'records: for _ in 0..u16_at(leaf, 0) {
        let (end, found) = better(leaf, after, best, at);
        best = found;
        at = end;
    }
    best
}

/// A record of the least name after this one, if the leaf has one.
pub fn next_in(alloc: Global, leaf: &[u8], after: &[u8]) -> Result<Option<Record>, BlockError>
    requires { IsLeaf leaf.now }
    ensures next { (rs : List Record) → SpellsLeaf rs leaf.now → IfOk result (λ found. Answers after.now rs found) }
    ensures holds { IfOk result (λ found. IfSome found RecordHolds) }
    ensures later { IfOk result (λ found. IsLater after.now found) }
    ensures memory { IfErr result (λ e. e ≡ Memory) }
{
    let Some((at, end)) = place_after(leaf, after) else {
        return Ok(None);
    };
    match read_record(alloc, &leaf[at..end]) {
        Ok(record) => Ok(Some(record)),
        Err(_) => Err(BlockError::Memory),
    }
}

/// How many records the leaf has, and how many bytes these take.
pub fn taken(leaf: &[u8]) -> (u16, u16)
    requires { IsLeaf leaf.now }
    ensures { (rs : List Record) → SpellsLeaf rs leaf.now → (length rs ≡ result.0) × (length (records_bytes rs) ≡ result.1) }
{
    (u16_at(leaf, 0), u16_at(leaf, 2))
}
