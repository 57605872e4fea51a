//! The block below a slot is made current, wherever the slot leads.
ghost use Rattle.std.specs.Prelude.{◌≡◌, ◌⊎◌, ◌+◌, ◌*◌, ◌/◌, ◌%◌, ◌^◌, ◌<◌, ℕ, suc};
ghost use Rattle.fo_image.specs.declared.types.Pointer.TheVariants.{Local};
ghost use Rattle.fo_crash.specs.Images.{target};
ghost use Rattle.fo_tree_own.specs.Step.{IsOwn, CanOwn, Becomes, Links};

use crate::below::{SLOTS, new_below, own_below};
use crate::kept::kept_below;
use fo_image::Pointer;
use fo_tree_look::{Blocks, Kept, Tree};

/// Makes block `k` of a level current, and leads the slot above to it: it is the block itself where that is of the active epoch, a copy of
/// an older one, one with what was kept under a score, or one of zeros.
pub fn own_block<B: Blocks>(
    tree: &Tree,
    kept: &[Kept],
    on: &mut B,
    above: u32,
    level: u8,
    k: u64,
) -> u32
    requires above { IsOwn (B.state on.old) tree.now (suc level) (k / 409) above }
    requires level { level < 4 }
    requires low { tree.now.rank < 2 ^ 31 }
    requires below { CanOwn (B.state on.old) tree.now kept.now level (target (((B.state on.old).now above).slot (k % 409))) }
    requires spare { ((b : ℕ) × (target (((B.state on.old).now above).slot (k % 409)) ≡ Local b) × (((B.state on.old).label b).epoch ≡ (B.state on.old).high)) ⊎ (0 < (B.state on.old).spare) }
    ensures step { ((target (((B.state on.old).now above).slot (k % 409)) ≡ Local result) × (on.new ≡ on.old) × IsOwn (B.state on.old) tree.now level (409 * (k / 409) + k % 409) result) ⊎ Links tree.now level (k / 409) above (k % 409) (target (((B.state on.old).now above).slot (k % 409))) result (B.state on.old) (B.state on.new) }
    ensures content { Becomes (B.state on.old) (B.state on.new) tree.now kept.now level (target (((B.state on.old).now above).slot (k % 409))) result }
    ensures keeps { B.keeps on.old on.new }
{
    let slot = on.slot(above, (k % SLOTS) as u32);
    match slot.target() {
        Pointer::Nil => new_below(tree, on, above, level, k),
        Pointer::Local(below) => own_below(tree, on, above, level, k, below),
        Pointer::Score(score) => kept_below(tree, kept, on, above, level, k, &score),
    }
}
