//! A block is fetched twice under its score, over any blocks.
ghost use Rattle.std.specs.Prelude.{◌≡◌, ℕ, length, IfErr, IfOk, OnOk};
ghost use Rattle.fo_ports.specs.declared.error.BlockError.{BlockError};
ghost use Rattle.fo_ports.specs.declared.error.BlockError.TheVariants.{Damaged};

use fo_image::Score;
use fo_ports::{BlockError, Blocks};

/// Fetches a block that is held under a score, and then once more: where the device tells, it is the same, and never damaged. An arena
/// in a file may read differently each time, so over a device that tells nothing neither is said.
pub fn fetch_twice<B: Blocks>(
    blocks: &mut B,
    score: &Score,
    kind: u8,
    first: &mut [u8],
    second: &mut [u8],
) -> Result<Result<(), BlockError>, BlockError>
    requires length { (length first.old ≡ 8192) × (length second.old ≡ 8192) }
    ensures same { (B.state blocks.old).tells → IfOk result (λ again. OnOk again (first.new ≡ second.new)) }
    ensures whole { (B.state blocks.old).tells → IfOk result (λ again. IfErr again (λ e. (b : ℕ) → e ≡ Damaged b → ⊥)) }
{
    if let Err(e) = blocks.fetch(score, kind, first) {
        return Err(e);
    }
    Ok(blocks.fetch(score, kind, second))
}
