//! The records of a directory.
ghost use Rattle.std.specs.Prelude.{◌≡◌, ◌≢◌, ◌+◌, ◌*◌, ◌^◌, ◌<◌, ◌≤◌, ℕ, List, length, find, IfOk, OnOk, IfErr, IfSome, Option, Some, None, MatchOption, OnErr};
ghost use Rattle.fo_base.specs.Cause.{Rose};
ghost use Rattle.fo_image.specs.declared.record.Record.{Record};
ghost use Rattle.fo_image.specs.declared.types.Kind.TheVariants.{Data};
ghost use Rattle.fo_image.specs.Record.{RecordHolds};
ghost use Rattle.fo_meta.specs.Leaf.{IsLeaf, SpellsLeaf, is_named};
ghost use Rattle.fo_ports.specs.declared.error.BlockError.TheVariants.{Memory};
ghost use Rattle.fo_ports.specs.Causes.{Caused};
ghost use Rattle.fo_ports.specs.State.{Looks};
ghost use Rattle.fo_ports.specs.Sources.{SameLeaves, depth_for};
ghost use Rattle.fo_dir_read.specs.Names.{OfRecords, LacksBelow, IsFound, Finds, leaf_count};
ghost use Rattle.fo_dir_read.specs.Pinned.{IsPinned};

use crate::leaves::{copy_leaf, count_of, pin_leaf};
use fo_base::BLOCK;
use fo_image::{Kind, Record};
use fo_meta::find;
use fo_ports::{BlockError, Blocks, Bytes};
use std::alloc::Global;

/// A record that was found, and the leaf in which it stands.
#[derive(Debug, Drop)]
pub struct Found {
    pub leaf: u32,
    pub record: Record,
}

/// The first record of this name in a leaf, if one has it.
fn find_in(alloc: Global, leaf: &[u8], name: &[u8]) -> Result<Option<Record>, BlockError>
    requires { IsLeaf leaf.now }
    ensures found { (rs : List Record) → SpellsLeaf rs leaf.now → IfOk result (λ found. found ≡ find (is_named name.now) rs) }
    ensures holds { IfOk result (λ found. IfSome found RecordHolds) }
    ensures named { IfOk result (λ found. IfSome found (λ r. r.name ≡ name.now)) }
    ensures memory { IfErr result (λ e. e ≡ Memory) }
{
    match find(alloc, leaf, name) {
        Ok(found) => Ok(found),
        Err(_) => Err(BlockError::Memory),
    }
}

/// The first record of this name in a leaf that stands in this block, if one has it; the leaf is copied.
fn copied_in<B: Blocks, S: Bytes<B>>(
    alloc: Global,
    records: &S,
    on: &mut B,
    rank: u32,
    at: u32,
    name: &[u8],
) -> Result<Option<Record>, BlockError>
    requires over { S.is_over records.now on.old }
    requires form { OfRecords (S.form records.now) rank }
    requires shows { (B.state on.old).tells → (i : ℕ) × ((S.leaves records.now on.old).at i ≡ Some at) }
    requires block { (B.state on.old).is_block at }
    ensures found { IfOk result (λ found. (B.state on.old).tells → (i : ℕ) → (S.leaves records.now on.old).at i ≡ Some at → Finds (B.state on.new).now (S.leaves records.now on.new) name.now i found) }
    ensures holds { IfOk result (λ found. IfSome found RecordHolds) }
    ensures named { IfOk result (λ found. IfSome found (λ r. r.name ≡ name.now)) }
    ensures over { S.is_over records.now on.new }
    ensures same { SameLeaves (B.state on.old).tells (S.leaves records.now on.old) (S.leaves records.now on.new) }
    ensures again { IsPinned (B.state on.old) (Data 0) at → (B.state on.old).pins_left ≤ (B.state on.new).pins_left }
    ensures looks { Looks (B.state on.old) (B.state on.new) }
    ensures keeps { B.keeps on.old on.new }
    ensures cause { IfErr result (Caused ⊥ (λ b. ((B.state on.old).tells → ⊥) × (B.state on.old).is_block b) (Rose (B.state on.old).faults (B.state on.new).faults) ⊥) }
{
    let mut leaf = [0; BLOCK];
    copy_leaf(records, on, Kind::Data(0), rank, at, &mut leaf)?;
    find_in(alloc, &leaf, name)
}

/// The first record of this name in leaf `i`, if one has it.
fn look_in<B: Blocks, S: Bytes<B>>(
    alloc: Global,
    records: &mut S,
    on: &mut B,
    rank: u32,
    i: u32,
    name: &[u8],
) -> Result<Option<Record>, BlockError>
    requires over { S.is_over records.old on.old }
    requires form { OfRecords (S.form records.old) rank }
    ensures found { IfOk result (λ found. (B.state on.old).tells → Finds (B.state on.new).now (S.leaves records.new on.new) name.now i found) }
    ensures holds { IfOk result (λ found. IfSome found RecordHolds) }
    ensures named { IfOk result (λ found. IfSome found (λ r. r.name ≡ name.now)) }
    ensures over { S.is_over records.new on.new }
    ensures same { (S.form records.new ≡ S.form records.old) × (S.size records.new ≡ S.size records.old) × SameLeaves (B.state on.old).tells (S.leaves records.old on.old) (S.leaves records.new on.new) }
    ensures pins { (B.state on.old).pins_left ≤ (B.state on.new).pins_left + (depth_for (S.size records.old) + 1) }
    ensures looks { Looks (B.state on.old) (B.state on.new) }
    ensures keeps { B.keeps on.old on.new }
    ensures cause { IfErr result (Caused ⊥ (λ b. ((B.state on.old).tells → ⊥) × (B.state on.old).is_block b) (Rose (B.state on.old).faults (B.state on.new).faults) ⊥) }
{
    let Some(at) = pin_leaf(records, on, Kind::Data(0), rank, i)? else {
        return Ok(None);
    };
    match on.lend(at, Kind::Data(0), rank) {
        Some(leaf) => find_in(alloc, leaf, name),
        None => copied_in(alloc, records, on, rank, at, name),
    }
}

/// The first record of this name and its leaf, or None where no record has the name.
pub fn lookup<B: Blocks, S: Bytes<B>>(
    alloc: Global,
    records: &mut S,
    on: &mut B,
    rank: u32,
    name: &[u8],
) -> Result<Option<Found>, BlockError>
    requires over { S.is_over records.old on.old }
    requires form { OfRecords (S.form records.old) rank }
    ensures found { IfOk result (λ found. (B.state on.old).tells → MatchOption found (LacksBelow (B.state on.new).now (S.leaves records.new on.new) name.now (leaf_count (S.size records.new))) (λ f. IsFound (B.state on.new).now (S.leaves records.new on.new) name.now (S.size records.new) f.leaf f.record)) }
    ensures holds { IfOk result (λ found. IfSome found (λ f. RecordHolds f.record)) }
    ensures named { IfOk result (λ found. IfSome found (λ f. f.record.name ≡ name.now)) }
    ensures within { IfOk result (λ found. IfSome found (λ f. f.leaf < leaf_count (S.size records.old))) }
    ensures over { S.is_over records.new on.new }
    ensures same { (S.form records.new ≡ S.form records.old) × (S.size records.new ≡ S.size records.old) × SameLeaves (B.state on.old).tells (S.leaves records.old on.old) (S.leaves records.new on.new) }
    ensures pins { (B.state on.old).pins_left ≤ (B.state on.new).pins_left + leaf_count (S.size records.old) * (depth_for (S.size records.old) + 1) }
    ensures looks { Looks (B.state on.old) (B.state on.new) }
    ensures keeps { B.keeps on.old on.new }
    ensures cause { IfErr result (Caused ⊥ (λ b. ((B.state on.old).tells → ⊥) × (B.state on.old).is_block b) (Rose (B.state on.old).faults (B.state on.new).faults) ⊥) }
{
    let count = count_of(records, on);
    for i in 0..count {
        match look_in(alloc, records, on, rank, i, name) {
            Ok(Some(record)) => return Ok(Some(Found { leaf: i, record })),
            Ok(None) => {}
            Err(why) => return Err(why),
        }
    }
    Ok(None)
}
