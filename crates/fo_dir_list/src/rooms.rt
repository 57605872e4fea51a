//! How many records a directory has, and where one more goes.
ghost use Rattle.std.specs.Prelude.{◌≡◌, ◌+◌, ◌*◌, ◌≤◌, ℕ, Some, IfOk, IfErr};
ghost use Rattle.fo_base.specs.Cause.{Rose};
ghost use Rattle.fo_image.specs.declared.types.Kind.TheVariants.{Data};
ghost use Rattle.fo_ports.specs.Causes.{Caused};
ghost use Rattle.fo_ports.specs.State.{Looks};
ghost use Rattle.fo_ports.specs.Sources.{SameLeaves, depth_for};
ghost use Rattle.fo_dir_read.specs.Names.{OfRecords, leaf_count};
ghost use Rattle.fo_dir_read.specs.Pinned.{IsPinned};
ghost use Rattle.fo_dir_list.specs.Room.{Takes, Counts, IsRoom};

use crate::leaf::taken;
use fo_base::BLOCK;
use fo_dir_read::{copy_leaf, count_of, pin_leaf};
use fo_image::Kind;
use fo_ports::{BlockError, Blocks, Bytes};

/// How many records a leaf that stands in this block has, and how many bytes these take; the leaf is copied.
fn copied_taken<B: Blocks, S: Bytes<B>>(
    records: &S,
    on: &mut B,
    rank: u32,
    at: u32,
) -> Result<(u16, u16), BlockError>
    requires over { S.is_over records.now on.old }
    requires form { OfRecords (S.form records.now) rank }
    requires shows { (B.state on.old).tells → (i : ℕ) × ((S.leaves records.now on.old).at i ≡ Some at) }
    requires block { (B.state on.old).is_block at }
    ensures takes { IfOk result (λ two. (B.state on.old).tells → (i : ℕ) → (S.leaves records.now on.old).at i ≡ Some at → Takes (B.state on.new).now (S.leaves records.now on.new) i two.0 two.1) }
    ensures over { S.is_over records.now on.new }
    ensures same { SameLeaves (B.state on.old).tells (S.leaves records.now on.old) (S.leaves records.now on.new) }
    ensures again { IsPinned (B.state on.old) (Data 0) at → (B.state on.old).pins_left ≤ (B.state on.new).pins_left }
    ensures looks { Looks (B.state on.old) (B.state on.new) }
    ensures keeps { B.keeps on.old on.new }
    ensures cause { IfErr result (Caused ⊥ (λ b. ((B.state on.old).tells → ⊥) × (B.state on.old).is_block b) (Rose (B.state on.old).faults (B.state on.new).faults) ⊥) }
{
    let mut leaf = [0; BLOCK];
    copy_leaf(records, on, Kind::Data(0), rank, at, &mut leaf)?;
    Ok(taken(&leaf))
}

/// How many records leaf `i` has, and how many bytes these take.
fn taken_at<B: Blocks, S: Bytes<B>>(
    records: &mut S,
    on: &mut B,
    rank: u32,
    i: u32,
) -> Result<(u16, u16), BlockError>
    requires over { S.is_over records.old on.old }
    requires form { OfRecords (S.form records.old) rank }
    ensures takes { IfOk result (λ two. (B.state on.old).tells → Takes (B.state on.new).now (S.leaves records.new on.new) i two.0 two.1) }
    ensures over { S.is_over records.new on.new }
    ensures same { (S.form records.new ≡ S.form records.old) × (S.size records.new ≡ S.size records.old) × SameLeaves (B.state on.old).tells (S.leaves records.old on.old) (S.leaves records.new on.new) }
    ensures pins { (B.state on.old).pins_left ≤ (B.state on.new).pins_left + (depth_for (S.size records.old) + 1) }
    ensures looks { Looks (B.state on.old) (B.state on.new) }
    ensures keeps { B.keeps on.old on.new }
    ensures cause { IfErr result (Caused ⊥ (λ b. ((B.state on.old).tells → ⊥) × (B.state on.old).is_block b) (Rose (B.state on.old).faults (B.state on.new).faults) ⊥) }
{
    let Some(at) = pin_leaf(records, on, Kind::Data(0), rank, i)? else {
        return Ok((0, 0));
    };
    match on.lend(at, Kind::Data(0), rank) {
        Some(leaf) => Ok(taken(leaf)),
        None => copied_taken(records, on, rank, at),
    }
}

/// How many records the directory has.
#[tactic(auto, using(crate::proofs::Room::none_counted))]
pub fn count<B: Blocks, S: Bytes<B>>(
    records: &mut S,
    on: &mut B,
    rank: u32,
) -> Result<u64, BlockError>
    requires over { S.is_over records.old on.old }
    requires form { OfRecords (S.form records.old) rank }
    ensures count { IfOk result (λ names. (B.state on.old).tells → Counts (B.state on.new).now (S.leaves records.new on.new) (leaf_count (S.size records.new)) names) }
    ensures over { S.is_over records.new on.new }
    ensures same { (S.form records.new ≡ S.form records.old) × (S.size records.new ≡ S.size records.old) × SameLeaves (B.state on.old).tells (S.leaves records.old on.old) (S.leaves records.new on.new) }
    ensures pins { (B.state on.old).pins_left ≤ (B.state on.new).pins_left + leaf_count (S.size records.old) * (depth_for (S.size records.old) + 1) }
    ensures looks { Looks (B.state on.old) (B.state on.new) }
    ensures keeps { B.keeps on.old on.new }
    ensures cause { IfErr result (Caused ⊥ (λ b. ((B.state on.old).tells → ⊥) × (B.state on.old).is_block b) (Rose (B.state on.old).faults (B.state on.new).faults) ⊥) }
{
    let count = count_of(records, on);
    let mut names = 0;
    for i in 0..count {
        match taken_at(records, on, rank, i) {
            Ok((some, _)) => names += some as u64,
            Err(why) => return Err(why),
        }
    }
    Ok(names)
}

/// The first leaf with room for a record of this length, or the one behind the last.
pub fn leaf_for<B: Blocks, S: Bytes<B>>(
    records: &mut S,
    on: &mut B,
    rank: u32,
    len: usize,
) -> Result<u32, BlockError>
    requires over { S.is_over records.old on.old }
    requires form { OfRecords (S.form records.old) rank }
    requires short { len ≤ 481 }
    ensures room { IfOk result (λ i. (B.state on.old).tells → IsRoom (B.state on.new).now (S.leaves records.new on.new) (leaf_count (S.size records.new)) len i) }
    ensures within { IfOk result (λ i. i ≤ leaf_count (S.size records.old)) }
    ensures over { S.is_over records.new on.new }
    ensures same { (S.form records.new ≡ S.form records.old) × (S.size records.new ≡ S.size records.old) × SameLeaves (B.state on.old).tells (S.leaves records.old on.old) (S.leaves records.new on.new) }
    ensures pins { (B.state on.old).pins_left ≤ (B.state on.new).pins_left + leaf_count (S.size records.old) * (depth_for (S.size records.old) + 1) }
    ensures looks { Looks (B.state on.old) (B.state on.new) }
    ensures keeps { B.keeps on.old on.new }
    ensures cause { IfErr result (Caused ⊥ (λ b. ((B.state on.old).tells → ⊥) × (B.state on.old).is_block b) (Rose (B.state on.old).faults (B.state on.new).faults) ⊥) }
{
    let count = count_of(records, on);
    for i in 0..count {
        match taken_at(records, on, rank, i) {
            Ok((_, used)) => {
                if used as usize + len <= BLOCK - 4 {
                    return Ok(i);
                }
            }
            Err(why) => return Err(why),
        }
    }
    Ok(count)
}
