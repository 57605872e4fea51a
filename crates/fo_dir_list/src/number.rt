//! The record of a file number.
ghost use Rattle.std.specs.Prelude.{◌≡◌, ◌+◌, ◌*◌, ◌<◌, ◌≤◌, ◌++◌, ℕ, List, length, drop, find, IfOk, IfErr, IfSome, Option, Some, None, MatchOption};
ghost use Rattle.fo_base.specs.Cause.{Rose};
ghost use Rattle.fo_image.specs.declared.record.Record.{Record};
ghost use Rattle.fo_image.specs.declared.types.Kind.TheVariants.{Data};
ghost use Rattle.fo_image.specs.Record.{RecordHolds, record_len};
ghost use Rattle.fo_meta.specs.Leaf.{HasSpelling, SpellsLeaf, IsLeaf, BeginsRecord, record_bytes};
ghost use Rattle.fo_ports.specs.declared.error.BlockError.TheVariants.{Memory};
ghost use Rattle.fo_ports.specs.Causes.{Caused};
ghost use Rattle.fo_ports.specs.State.{Looks};
ghost use Rattle.fo_ports.specs.Sources.{SameLeaves, depth_for};
ghost use Rattle.fo_dir_read.specs.Names.{OfRecords, leaf_count};
ghost use Rattle.fo_dir_read.specs.Pinned.{IsPinned};
ghost use Rattle.fo_dir_list.specs.Numbered.{FirstStands, FindsNumber, LacksNumberBelow, IsNumbered, has_number};

use fo_base::BLOCK;
use fo_dir_read::{Found, copy_leaf, count_of, pin_leaf};
use fo_image::{Kind, Record, read_record, u16_at, u32_at};
use fo_ports::{BlockError, Blocks, Bytes};
use std::alloc::Global;

/// The end of the record at this place, and its file number.
fn end_and_number(leaf: &[u8], at: usize) -> (usize, u32)
    requires { BeginsRecord leaf.now at }
    ensures { (r : Record) (more : List ℕ) → HasSpelling r → drop at leaf.now ≡ record_bytes r ++ more → (result.0 ≡ at + record_len r) × (result.1 ≡ r.number) }
{
    (at + u16_at(leaf, at) as usize, u32_at(leaf, at + 2))
}

/// Where the first record of this number stands: its first byte, and the one after its last.
fn place_of(leaf: &[u8], number: u32) -> Option<(usize, usize)>
    requires { IsLeaf leaf.now }
    ensures place { (rs : List Record) → SpellsLeaf rs leaf.now → FirstStands leaf.now number rs result }
    ensures within { IfSome result (λ place. (place.0 ≤ place.1) × (place.1 ≤ length leaf.now)) }
{
    let mut at = 4;
    'records: for _ in 0..u16_at(leaf, 0) {
        let (end, found) = end_and_number(leaf, at);
        if found == number {
            return Some((at, end));
        }
        at = end;
    }
    None
}

/// The first record of this number in a leaf, if one has it.
fn find_in(alloc: Global, leaf: &[u8], number: u32) -> Result<Option<Record>, BlockError>
    requires { IsLeaf leaf.now }
    ensures found { (rs : List Record) → SpellsLeaf rs leaf.now → IfOk result (λ found. found ≡ find (has_number number) rs) }
    ensures holds { IfOk result (λ found. IfSome found RecordHolds) }
    ensures numbered { IfOk result (λ found. IfSome found (λ r. r.number ≡ number)) }
    ensures memory { IfErr result (λ e. e ≡ Memory) }
{
    let Some((at, end)) = place_of(leaf, number) else {
        return Ok(None);
    };
    match read_record(alloc, &leaf[at..end]) {
        Ok(record) => Ok(Some(record)),
        Err(_) => Err(BlockError::Memory),
    }
}

/// The first record of this number in a leaf that stands in this block, if it has one; the leaf is copied.
fn copied_in<B: Blocks, S: Bytes<B>>(
    alloc: Global,
    records: &S,
    on: &mut B,
    rank: u32,
    at: u32,
    number: u32,
) -> Result<Option<Record>, BlockError>
    requires over { S.is_over records.now on.old }
    requires form { OfRecords (S.form records.now) rank }
    requires shows { (B.state on.old).tells → (i : ℕ) × ((S.leaves records.now on.old).at i ≡ Some at) }
    requires block { (B.state on.old).is_block at }
    ensures found { IfOk result (λ found. (B.state on.old).tells → (i : ℕ) → (S.leaves records.now on.old).at i ≡ Some at → FindsNumber (B.state on.new).now (S.leaves records.now on.new) number i found) }
    ensures holds { IfOk result (λ found. IfSome found RecordHolds) }
    ensures numbered { IfOk result (λ found. IfSome found (λ r. r.number ≡ number)) }
    ensures over { S.is_over records.now on.new }
    ensures same { SameLeaves (B.state on.old).tells (S.leaves records.now on.old) (S.leaves records.now on.new) }
    ensures again { IsPinned (B.state on.old) (Data 0) at → (B.state on.old).pins_left ≤ (B.state on.new).pins_left }
    ensures looks { Looks (B.state on.old) (B.state on.new) }
    ensures keeps { B.keeps on.old on.new }
    ensures cause { IfErr result (Caused ⊥ (λ b. ((B.state on.old).tells → ⊥) × (B.state on.old).is_block b) (Rose (B.state on.old).faults (B.state on.new).faults) ⊥) }
{
    let mut leaf = [0; BLOCK];
    copy_leaf(records, on, Kind::Data(0), rank, at, &mut leaf)?;
    find_in(alloc, &leaf, number)
}

/// The first record of this number in leaf `i`, if one has it.
fn look_in<B: Blocks, S: Bytes<B>>(
    alloc: Global,
    records: &mut S,
    on: &mut B,
    rank: u32,
    i: u32,
    number: u32,
) -> Result<Option<Record>, BlockError>
    requires over { S.is_over records.old on.old }
    requires form { OfRecords (S.form records.old) rank }
    ensures found { IfOk result (λ found. (B.state on.old).tells → FindsNumber (B.state on.new).now (S.leaves records.new on.new) number i found) }
    ensures holds { IfOk result (λ found. IfSome found RecordHolds) }
    ensures numbered { IfOk result (λ found. IfSome found (λ r. r.number ≡ number)) }
    ensures over { S.is_over records.new on.new }
    ensures same { (S.form records.new ≡ S.form records.old) × (S.size records.new ≡ S.size records.old) × SameLeaves (B.state on.old).tells (S.leaves records.old on.old) (S.leaves records.new on.new) }
    ensures pins { (B.state on.old).pins_left ≤ (B.state on.new).pins_left + (depth_for (S.size records.old) + 1) }
    ensures looks { Looks (B.state on.old) (B.state on.new) }
    ensures keeps { B.keeps on.old on.new }
    ensures cause { IfErr result (Caused ⊥ (λ b. ((B.state on.old).tells → ⊥) × (B.state on.old).is_block b) (Rose (B.state on.old).faults (B.state on.new).faults) ⊥) }
{
    let Some(at) = pin_leaf(records, on, Kind::Data(0), rank, i)? else {
        return Ok(None);
    };
    match on.lend(at, Kind::Data(0), rank) {
        Some(leaf) => find_in(alloc, leaf, number),
        None => copied_in(alloc, records, on, rank, at, number),
    }
}

/// The first record of this file number and its leaf, or None where no record has the number.
pub fn numbered<B: Blocks, S: Bytes<B>>(
    alloc: Global,
    records: &mut S,
    on: &mut B,
    rank: u32,
    number: u32,
) -> Result<Option<Found>, BlockError>
    requires over { S.is_over records.old on.old }
    requires form { OfRecords (S.form records.old) rank }
    ensures found { IfOk result (λ found. (B.state on.old).tells → MatchOption found (LacksNumberBelow (B.state on.new).now (S.leaves records.new on.new) number (leaf_count (S.size records.new))) (λ f. IsNumbered (B.state on.new).now (S.leaves records.new on.new) number (S.size records.new) f.leaf f.record)) }
    ensures holds { IfOk result (λ found. IfSome found (λ f. RecordHolds f.record)) }
    ensures numbered { IfOk result (λ found. IfSome found (λ f. f.record.number ≡ number)) }
    ensures within { IfOk result (λ found. IfSome found (λ f. f.leaf < leaf_count (S.size records.old))) }
    ensures over { S.is_over records.new on.new }
    ensures same { (S.form records.new ≡ S.form records.old) × (S.size records.new ≡ S.size records.old) × SameLeaves (B.state on.old).tells (S.leaves records.old on.old) (S.leaves records.new on.new) }
    ensures pins { (B.state on.old).pins_left ≤ (B.state on.new).pins_left + leaf_count (S.size records.old) * (depth_for (S.size records.old) + 1) }
    ensures looks { Looks (B.state on.old) (B.state on.new) }
    ensures keeps { B.keeps on.old on.new }
    ensures cause { IfErr result (Caused ⊥ (λ b. ((B.state on.old).tells → ⊥) × (B.state on.old).is_block b) (Rose (B.state on.old).faults (B.state on.new).faults) ⊥) }
{
    let count = count_of(records, on);
    for i in 0..count {
        match look_in(alloc, records, on, rank, i, number) {
            Ok(Some(record)) => return Ok(Some(Found { leaf: i, record })),
            Ok(None) => {}
            Err(why) => return Err(why),
        }
    }
    Ok(None)
}
