//! The leaves of a source but one.
ghost use Rattle.std.specs.Prelude.{◌≡◌, ◌≢◌, ◌+◌, ◌*◌, ◌^◌, ◌<◌, ◌≤◌, ℕ, Some, true, false, IfOk, IfErr};
ghost use Rattle.fo_base.specs.Cause.{Rose};
ghost use Rattle.fo_ports.specs.Causes.{Caused};
ghost use Rattle.fo_ports.specs.State.{Looks};
ghost use Rattle.fo_ports.specs.Sources.{SameLeaves, depth_for};
ghost use Rattle.fo_dir_read.specs.Names.{leaf_count};
ghost use Rattle.fo_dir_sure.specs.Sure.{AreSureBut, IsSettledLeaf, IsUnsureAt};

use fo_dir_read::count_of;
use fo_ports::{BlockError, Blocks, Bytes};

/// Whether leaf `i` of a source stands in a block that is known to be in every image what memory has, and was in place when all was last settled.
fn is_sure_at<B: Blocks, S: Bytes<B>>(
    source: &mut S,
    on: &mut B,
    i: u32,
) -> Result<bool, BlockError>
    requires over { S.is_over source.old on.old }
    ensures sure { IfOk result (λ yes. yes ≡ true → (B.state on.old).tells → (b : ℕ) × ((S.leaves source.new on.new).at i ≡ Some b) × IsSettledLeaf (B.state on.new) b) }
    ensures unsure { IfOk result (λ yes. yes ≡ false → IsUnsureAt (B.state on.new) (S.leaves source.new on.new) i) }
    ensures over { S.is_over source.new on.new }
    ensures same { (S.form source.new ≡ S.form source.old) × (S.size source.new ≡ S.size source.old) × SameLeaves (B.state on.old).tells (S.leaves source.old on.old) (S.leaves source.new on.new) }
    ensures pins { (B.state on.old).pins_left ≤ (B.state on.new).pins_left + depth_for (S.size source.old) }
    ensures looks { Looks (B.state on.old) (B.state on.new) }
    ensures keeps { B.keeps on.old on.new }
    ensures cause { IfErr result (Caused ⊥ (λ b. ((B.state on.old).tells → ⊥) × (B.state on.old).is_block b) (Rose (B.state on.old).faults (B.state on.new).faults) ⊥) }
{
    match source.leaf(on, i)? {
        Some(at) => Ok(on.is_sure(at) && on.sealed(at)),
        None => Ok(false),
    }
}

/// Whether each leaf of a source but this one stands in a block that is known to be in every image what memory has, and was in place when all was
/// last settled.
pub fn others_are_sure<B: Blocks, S: Bytes<B>>(
    source: &mut S,
    on: &mut B,
    but: u32,
) -> Result<bool, BlockError>
    requires over { S.is_over source.old on.old }
    requires short { (S.form source.old).limit ≤ 2 ^ 40 }
    ensures sure { IfOk result (λ yes. yes ≡ true → (B.state on.old).tells → AreSureBut (B.state on.new) (S.leaves source.new on.new) (leaf_count (S.size source.new)) but) }
    ensures unsure { IfOk result (λ yes. yes ≡ false → (i : ℕ) × (i < leaf_count (S.size source.new)) × (i ≢ but) × IsUnsureAt (B.state on.new) (S.leaves source.new on.new) i) }
    ensures over { S.is_over source.new on.new }
    ensures same { (S.form source.new ≡ S.form source.old) × (S.size source.new ≡ S.size source.old) × SameLeaves (B.state on.old).tells (S.leaves source.old on.old) (S.leaves source.new on.new) }
    ensures pins { (B.state on.old).pins_left ≤ (B.state on.new).pins_left + leaf_count (S.size source.old) * depth_for (S.size source.old) }
    ensures looks { Looks (B.state on.old) (B.state on.new) }
    ensures keeps { B.keeps on.old on.new }
    ensures cause { IfErr result (Caused ⊥ (λ b. ((B.state on.old).tells → ⊥) × (B.state on.old).is_block b) (Rose (B.state on.old).faults (B.state on.new).faults) ⊥) }
{
    let count = count_of(source, on);
    for i in 0..count {
        if i != but {
            match is_sure_at(source, on, i) {
                Ok(true) => {}
                Ok(false) => return Ok(false),
                Err(why) => return Err(why),
            }
        }
    }
    Ok(true)
}
