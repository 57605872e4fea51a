//! The leaves of a source that are looked at.
ghost use Rattle.std.specs.Prelude.{◌≡◌, ◌⊎◌, ◌+◌, ◌^◌, ◌<◌, ◌≤◌, ℕ, length, IfOk, OnOk, IfErr, IfSome, Option, Some, None};
ghost use Rattle.fo_base.specs.Cause.{Rose};
ghost use Rattle.fo_image.specs.declared.types.Pointer.TheVariants.{Local};
ghost use Rattle.fo_ports.specs.of_crash.Images.{target};
ghost use Rattle.fo_ports.specs.Blocks.{Reads, ReadsSlots, IsFormed, slot_count};
ghost use Rattle.fo_ports.specs.Causes.{Caused};
ghost use Rattle.fo_ports.specs.State.{Looks};
ghost use Rattle.fo_ports.specs.Sources.{SameLeaves, depth_for};
ghost use Rattle.fo_dir_read.specs.Names.{leaf_count};
ghost use Rattle.fo_dir_read.specs.Pinned.{IsPinned};

use fo_base::BLOCK;
use fo_image::Kind;
use fo_ports::{BlockError, Blocks, Bytes};

/// Pins leaf `i` of a source of leaves of this kind and rank, and gives the block in which it stands; None where there is none.
pub fn pin_leaf<B: Blocks, S: Bytes<B>>(
    source: &mut S,
    on: &mut B,
    kind: Kind,
    rank: u32,
    i: u32,
) -> Result<Option<u32>, BlockError>
    requires over { S.is_over source.old on.old }
    requires form { ((S.form source.old).kind ≡ kind) × ((S.form source.old).rank ≡ rank) }
    ensures shows { IfOk result (λ at. (B.state on.old).tells → (S.leaves source.new on.new).at i ≡ at) }
    ensures block { IfOk result (λ at. IfSome at (λ b. (B.state on.new).is_block b)) }
    ensures pinned { IfOk result (λ at. IfSome at (λ b. IsPinned (B.state on.new) kind b ⊎ ((B.state on.old).pins_left ≤ depth_for (S.size source.old)))) }
    ensures over { S.is_over source.new on.new }
    ensures same { (S.form source.new ≡ S.form source.old) × (S.size source.new ≡ S.size source.old) × SameLeaves (B.state on.old).tells (S.leaves source.old on.old) (S.leaves source.new on.new) }
    ensures pins { (B.state on.old).pins_left ≤ (B.state on.new).pins_left + (depth_for (S.size source.old) + 1) }
    ensures looks { Looks (B.state on.old) (B.state on.new) }
    ensures keeps { B.keeps on.old on.new }
    ensures cause { IfErr result (Caused ⊥ (λ b. ((B.state on.old).tells → ⊥) × (B.state on.old).is_block b) (Rose (B.state on.old).faults (B.state on.new).faults) ⊥) }
{
    let Some(at) = source.leaf(on, i)? else {
        return Ok(None);
    };
    match on.pin(at, kind, rank) {
        Ok(()) => Ok(Some(at)),
        Err(why) => Err(why),
    }
}

/// Copies a leaf of a source of leaves of this kind and rank, which stands in this block.
pub fn copy_leaf<B: Blocks, S: Bytes<B>>(
    source: &S,
    on: &mut B,
    kind: Kind,
    rank: u32,
    at: u32,
    into: &mut [u8],
) -> Result<(), BlockError>
    requires over { S.is_over source.now on.old }
    requires form { ((S.form source.now).kind ≡ kind) × ((S.form source.now).rank ≡ rank) }
    requires shows { (B.state on.old).tells → (i : ℕ) × ((S.leaves source.now on.old).at i ≡ Some at) }
    requires block { (B.state on.old).is_block at }
    requires length { length into.old ≡ 8192 }
    ensures reads { OnOk result (Reads kind ((B.state on.new).now at) into.new × ReadsSlots kind ((B.state on.new).now at) into.new) }
    ensures formed { OnOk result (IsFormed kind rank into.new) }
    ensures names { OnOk result ((i below : ℕ) → i < slot_count kind → target (((B.state on.new).now at).slot i) ≡ Local below → (B.state on.new).is_block below) }
    ensures over { S.is_over source.now on.new }
    ensures same { SameLeaves (B.state on.old).tells (S.leaves source.now on.old) (S.leaves source.now on.new) }
    ensures shows { (B.state on.old).tells → (i : ℕ) → (S.leaves source.now on.old).at i ≡ Some at → (S.leaves source.now on.new).at i ≡ Some at }
    ensures again { IsPinned (B.state on.old) kind at → (B.state on.old).pins_left ≤ (B.state on.new).pins_left }
    ensures looks { Looks (B.state on.old) (B.state on.new) }
    ensures keeps { B.keeps on.old on.new }
    ensures cause { IfErr result (Caused ⊥ (λ b. ((B.state on.old).tells → ⊥) × (B.state on.old).is_block b) (Rose (B.state on.old).faults (B.state on.new).faults) ⊥) }
{
    let _ = source;
    on.get(at, kind, rank, into)
}

/// How many leaves a source has.
pub fn count_of<B: Blocks, S: Bytes<B>>(source: &S, on: &B) -> u32
    requires over { S.is_over source.now on.now }
    requires short { (S.form source.now).limit ≤ 2 ^ 40 }
    ensures is { result ≡ leaf_count (S.size source.now) }
    ensures few { result ≤ leaf_count ((S.form source.now).limit) }
{
    let _ = on;
    source.len().div_ceil(BLOCK as u64) as u32
}
