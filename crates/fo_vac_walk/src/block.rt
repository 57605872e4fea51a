//! Blocks that an archive names.
ghost use Rattle.std.specs.Prelude.{◌≡◌, ◌*◌, ◌<◌, ◌≤◌, length, take, drop, IfOk, MatchResult};
ghost use Rattle.std.specs.Str.{bytes_eq};
ghost use Rattle.fo_vacput.specs.declared.types.TheConstants.{EMPTY};
ghost use Rattle.fo_vacput.specs.Cut.{tail_of, grown};
ghost use Rattle.venti_store.specs.Arena.{lines_of};
ghost use Rattle.fo_vac_walk.specs.Walk.{Holding, IsTold, StandsIn, GotIs, GetSpoils, IsPointers, HasWalkCauses};
ghost use Rattle.fo_vac_walk.specs.declared.error.WalkError.TheVariants.{Damaged};

use crate::error::WalkError;
use fo_disk::{BLOCK, Disk};
use fo_image::{Score, score_at};
use fo_vacput::{EMPTY, grow};
use std::alloc::Global;
use venti_store::{Arena, ArenaError};

/// Where a pointer leads, and the block of the arena's device that has the pointer.
#[derive(Clone, Copy)]
pub(crate) struct Spot {
    pub(crate) score: Score,
    pub(crate) holder: u32,
}

/// What is stored of a block, and the block of the arena's device that has it.
#[derive(Drop)]
pub(crate) struct Got {
    pub(crate) bytes: Vec<u8>,
    pub(crate) at: u32,
}

/// Whether the score stands for a nil pointer.
pub(crate) fn is_nil(score: Score) -> bool
    ensures { result ≡ bytes_eq score.0 EMPTY.0 }
{
    score.0 == EMPTY.0
}

/// The block of the arena's device that has the block to which a pointer leads; for the empty block, the one that has the pointer.
fn block_at<A: Disk>(arena: &Arena<A>, spot: Spot, kind: u8) -> u32
    ensures { StandsIn (lines_of arena.now.shelf) spot.holder spot.score.0 kind result }
{
    match arena.block_of(&spot.score, kind) {
        Some(at) => at,
        None => spot.holder,
    }
}

/// The block to which a pointer leads, by its kind.
pub(crate) fn get_block<A: Disk>(
    alloc: Global,
    arena: &mut Arena<A>,
    spot: Spot,
    kind: u8,
) -> Result<Got, WalkError>
    ensures held { (h : Holding) → IsTold h arena.old.shelf (A.state arena.old.device)
        → MatchResult result (GotIs h spot.holder spot.score.0 kind) (GetSpoils h spot.holder spot.score.0 kind) }
    ensures short { IfOk result (λ got. length got.bytes.items ≤ 8192) }
    ensures shelf { arena.new.shelf ≡ arena.old.shelf }
    ensures kept { A.state arena.new.device ≡ A.state arena.old.device }
    ensures cause { HasWalkCauses (A.faults arena.old.device) (A.faults arena.new.device) result }
{
    let mut bytes = Vec::new(alloc);
    match arena.get(&spot.score, kind, &mut bytes) {
        Ok(()) => {
            let at = block_at(arena, spot, kind);
            Ok(Got { bytes, at })
        }
        Err(ArenaError::Absent) => Err(WalkError::Damaged(spot.holder)),
        Err(ArenaError::Damaged(at)) => Err(WalkError::Damaged(at)),
        Err(ArenaError::ArenaRead) => Err(WalkError::ArenaRead),
        Err(_) => Err(WalkError::Memory),
    }
}

/// Pointer `i` of a block of pointers.
pub(crate) fn pointer_in(got: &Got, kind: u8, i: usize) -> Result<Spot, WalkError>
    requires slot { i < 409 }
    requires short { length got.now.bytes.items ≤ 8192 }
    ensures { MatchResult result
        (λ spot. (spot.holder ≡ got.now.at) × (spot.score.0 ≡ take 20 (drop (20 * i) (grown (tail_of kind) 8192 got.now.bytes.items))))
        (λ e. (e ≡ Damaged got.now.at) × ¬ IsPointers got.now.bytes.items) }
{
    let bytes = got.bytes.as_slice();
    if 8180 < bytes.len() || bytes.len() % 20 != 0 {
        return Err(WalkError::Damaged(got.at));
    }
    let mut block = [0; BLOCK];
    grow(kind, bytes, &mut block);
    Ok(Spot {
        score: score_at(&block, 20 * i),
        holder: got.at,
    })
}
