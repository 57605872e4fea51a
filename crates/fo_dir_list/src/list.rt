//! The records of a directory in the order of their names.
ghost use Rattle.std.specs.Prelude.{◌≡◌, ◌+◌, ◌*◌, ◌≤◌, ◌++◌, ℕ, List, IfOk, IfErr, IfSome, Option, Some, None};
ghost use Rattle.fo_base.specs.Cause.{Rose};
ghost use Rattle.fo_image.specs.declared.record.Record.{Record};
ghost use Rattle.fo_image.specs.declared.types.Kind.TheVariants.{Data};
ghost use Rattle.fo_image.specs.Record.{RecordHolds};
ghost use Rattle.fo_ports.specs.Causes.{Caused};
ghost use Rattle.fo_ports.specs.State.{Looks};
ghost use Rattle.fo_ports.specs.Sources.{SameLeaves, depth_for};
ghost use Rattle.fo_dir_read.specs.Names.{OfRecords, leaf_count};
ghost use Rattle.fo_dir_read.specs.Pinned.{IsPinned};
ghost use Rattle.fo_dir_list.specs.Next.{IsLater, Answers, NextIn, NextBelow, is_better};

use crate::leaf::{comes_before, next_in};
use fo_base::BLOCK;
use fo_dir_read::{copy_leaf, count_of, pin_leaf};
use fo_image::{Kind, Record};
use fo_ports::{BlockError, Blocks, Bytes};
use std::alloc::Global;

/// A record of the least name after this one in a leaf that stands in this block, if it has one; the leaf is copied.
fn copied_next<B: Blocks, S: Bytes<B>>(
    alloc: Global,
    records: &S,
    on: &mut B,
    rank: u32,
    at: u32,
    after: &[u8],
) -> Result<Option<Record>, BlockError>
    requires over { S.is_over records.now on.old }
    requires form { OfRecords (S.form records.now) rank }
    requires shows { (B.state on.old).tells → (i : ℕ) × ((S.leaves records.now on.old).at i ≡ Some at) }
    requires block { (B.state on.old).is_block at }
    ensures next { IfOk result (λ found. (B.state on.old).tells → (i : ℕ) → (S.leaves records.now on.old).at i ≡ Some at → NextIn (B.state on.new).now (S.leaves records.now on.new) after.now i found) }
    ensures holds { IfOk result (λ found. IfSome found RecordHolds) }
    ensures later { IfOk result (λ found. IsLater after.now found) }
    ensures over { S.is_over records.now on.new }
    ensures same { SameLeaves (B.state on.old).tells (S.leaves records.now on.old) (S.leaves records.now on.new) }
    ensures again { IsPinned (B.state on.old) (Data 0) at → (B.state on.old).pins_left ≤ (B.state on.new).pins_left }
    ensures looks { Looks (B.state on.old) (B.state on.new) }
    ensures keeps { B.keeps on.old on.new }
    ensures cause { IfErr result (Caused ⊥ (λ b. ((B.state on.old).tells → ⊥) × (B.state on.old).is_block b) (Rose (B.state on.old).faults (B.state on.new).faults) ⊥) }
{
    let mut leaf = [0; BLOCK];
    copy_leaf(records, on, Kind::Data(0), rank, at, &mut leaf)?;
    next_in(alloc, &leaf, after)
}

/// A record of the least name after this one in leaf `i`, if it has one.
fn next_at<B: Blocks, S: Bytes<B>>(
    alloc: Global,
    records: &mut S,
    on: &mut B,
    rank: u32,
    i: u32,
    after: &[u8],
) -> Result<Option<Record>, BlockError>
    requires over { S.is_over records.old on.old }
    requires form { OfRecords (S.form records.old) rank }
    ensures next { IfOk result (λ found. (B.state on.old).tells → NextIn (B.state on.new).now (S.leaves records.new on.new) after.now i found) }
    ensures holds { IfOk result (λ found. IfSome found RecordHolds) }
    ensures later { IfOk result (λ found. IsLater after.now found) }
    ensures over { S.is_over records.new on.new }
    ensures same { (S.form records.new ≡ S.form records.old) × (S.size records.new ≡ S.size records.old) × SameLeaves (B.state on.old).tells (S.leaves records.old on.old) (S.leaves records.new on.new) }
    ensures pins { (B.state on.old).pins_left ≤ (B.state on.new).pins_left + (depth_for (S.size records.old) + 1) }
    ensures looks { Looks (B.state on.old) (B.state on.new) }
    ensures keeps { B.keeps on.old on.new }
    ensures cause { IfErr result (Caused ⊥ (λ b. ((B.state on.old).tells → ⊥) × (B.state on.old).is_block b) (Rose (B.state on.old).faults (B.state on.new).faults) ⊥) }
{
    let Some(at) = pin_leaf(records, on, Kind::Data(0), rank, i)? else {
        return Ok(None);
    };
    match on.lend(at, Kind::Data(0), rank) {
        Some(leaf) => next_in(alloc, leaf, after),
        None => copied_next(alloc, records, on, rank, at, after),
    }
}

/// Whether a record that was found is to be taken in place of the best one so far.
fn is_better(best: &Option<Record>, found: &Option<Record>) -> bool
    ensures { result ≡ is_better best.now found.now }
{
    let Some(old) = best else {
        return true;
    };
    let Some(new) = found else {
        return false;
    };
    comes_before(new.name.as_slice(), old.name.as_slice())
}

/// Of two records the one whose name comes before the other's.
fn lesser(best: Option<Record>, found: Option<Record>) -> Option<Record>
    ensures answers { (after : List ℕ) (front last : List Record) → Answers after front best → Answers after last found → Answers after (front ++ last) result }
    ensures holds { IfSome best RecordHolds → IfSome found RecordHolds → IfSome result RecordHolds }
    ensures later { (after : List ℕ) → IsLater after best → IsLater after found → IsLater after result }
{
    if is_better(&best, &found) {
        found
    } else {
        best
    }
}

/// A record of the least name after this one, or None where no record's name is after it.
#[tactic(auto, using(crate::proofs::Least::none_below))]
pub fn next<B: Blocks, S: Bytes<B>>(
    alloc: Global,
    records: &mut S,
    on: &mut B,
    rank: u32,
    after: &[u8],
) -> Result<Option<Record>, BlockError>
    requires over { S.is_over records.old on.old }
    requires form { OfRecords (S.form records.old) rank }
    ensures next { IfOk result (λ found. (B.state on.old).tells → NextBelow (B.state on.new).now (S.leaves records.new on.new) after.now (leaf_count (S.size records.new)) found) }
    ensures holds { IfOk result (λ found. IfSome found RecordHolds) }
    ensures later { IfOk result (λ found. IsLater after.now found) }
    ensures over { S.is_over records.new on.new }
    ensures same { (S.form records.new ≡ S.form records.old) × (S.size records.new ≡ S.size records.old) × SameLeaves (B.state on.old).tells (S.leaves records.old on.old) (S.leaves records.new on.new) }
    ensures pins { (B.state on.old).pins_left ≤ (B.state on.new).pins_left + leaf_count (S.size records.old) * (depth_for (S.size records.old) + 1) }
    ensures looks { Looks (B.state on.old) (B.state on.new) }
    ensures keeps { B.keeps on.old on.new }
    ensures cause { IfErr result (Caused ⊥ (λ b. ((B.state on.old).tells → ⊥) × (B.state on.old).is_block b) (Rose (B.state on.old).faults (B.state on.new).faults) ⊥) }
{
    let count = count_of(records, on);
    let mut best = None;
    for i in 0..count {
        match next_at(alloc, records, on, rank, i, after) {
            Ok(found) => best = lesser(best, found),
            Err(why) => return Err(why),
        }
    }
    Ok(best)
}
