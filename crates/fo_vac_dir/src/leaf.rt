//! Leaves of records.
ghost use Rattle.std.specs.Prelude.{◌≡◌, ◌⊎◌, ◌<◌, ℕ, length, IfOk, MatchResult};
ghost use Rattle.fo_crash.specs.Images.{Link};
ghost use Rattle.fo_good.specs.Reading.{leaf_records};
ghost use Rattle.fo_good.specs.Reading.{leaves_in};
ghost use Rattle.fo_good.specs.Trees.{size_of};
ghost use Rattle.fo_meta.specs.Leaf.{IsLeaf};
ghost use Rattle.fo_vac_walk.specs.Walk.{Holding, IsTold, IsSourceOf, bytes_of, leaf_of, HasWalkCauses};
ghost use Rattle.fo_vac_walk.specs.declared.error.WalkError.TheVariants.{Damaged, Memory};
ghost use Rattle.fo_vac_dir.specs.Choice.{AllHold};
ghost use Rattle.fo_vac_dir.specs.Dir.{Spoiled};

use fo_disk::{BLOCK, Disk};
use fo_image::Record;
use fo_rules::read_leaf;
use fo_vac_walk::{Source, WalkError};
use std::alloc::Global;
use venti_store::Arena;

/// The records of a leaf, which this block of the arena's device has.
fn records_in(alloc: Global, leaf: &[u8], at: u32) -> Result<Vec<Record>, WalkError>
    requires { length leaf.now ≡ 8192 }
    ensures read { MatchResult result (λ v. v.items ≡ leaf_records leaf.now) (λ e. (e ≡ Memory) ⊎ ((e ≡ Damaged at) × ¬ IsLeaf leaf.now)) }
    ensures holds { IfOk result (λ v. AllHold v.items) }
{
    match read_leaf(alloc, leaf) {
        Ok(Some(records)) => Ok(records),
        Ok(None) => Err(WalkError::Damaged(at)),
        Err(_) => Err(WalkError::Memory),
    }
}

/// The records of leaf `k` of a source of records.
pub(crate) fn records_of<A: Disk>(
    alloc: Global,
    arena: &mut Arena<A>,
    meta: &Source,
    k: u64,
) -> Result<Vec<Record>, WalkError>
    ensures held { (h : Holding) (w : Link) → IsTold h arena.old.shelf (A.state arena.old.device) → IsSourceOf w meta.now.entry → k < leaves_in (size_of w.slot)
        → MatchResult result (λ v. v.items ≡ leaf_records (bytes_of h (leaf_of h w k))) (Spoiled h w meta.now.holder) }
    ensures holds { IfOk result (λ v. AllHold v.items) }
    ensures shelf { arena.new.shelf ≡ arena.old.shelf }
    ensures kept { A.state arena.new.device ≡ A.state arena.old.device }
    ensures cause { HasWalkCauses (A.faults arena.old.device) (A.faults arena.new.device) result }
{
    let mut block = [0; BLOCK];
    let found = meta.leaf(alloc, arena, k, &mut block)?;
    let Some(at) = found else {
        return Ok(Vec::new(alloc));
    };
    records_in(alloc, &block, at)
}
