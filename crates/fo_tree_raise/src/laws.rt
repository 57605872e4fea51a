//! Where a level may be put above the top of a source.
ghost use Rattle.std.specs.Prelude.{◌≡◌, ℕ, true};
ghost use Rattle.fo_image.specs.declared.types.State.TheVariants.{Live};
ghost use Rattle.fo_image.specs.declared.types.Pointer.TheVariants.{Local};
ghost use Rattle.fo_crash.specs.Images.{Reaches, to_block};
ghost use Rattle.fo_tree_look.specs.Source.{Over, HasBlock};
ghost use Rattle.fo_tree_raise.specs.Raise.{CanRaise};

use fo_ports::Blocks;
use fo_tree_look::Kept;
use fo_tree_read::Tree;

/// A level may be put above the top of a source that stands over the blocks, where the top is current or there is none; above that of a
/// source of entries where all its blocks hang from block 1.
pub fn may_raise<B: Blocks>(tree: &Tree, kept: &[Kept], on: &B)
    requires over { (limit : ℕ) × Over (B.state on.now) tree.now kept.now limit }
    requires current { (b : ℕ) → tree.now.top ≡ Local b → (((B.state on.now).label b).state ≡ Live) × (((B.state on.now).label b).epoch ≡ (B.state on.now).high) }
    requires linked { (B.state on.now).tells → tree.now.dir ≡ true → (b : ℕ) → HasBlock (B.state on.now) tree.now b → Reaches (B.state on.now).now (to_block 1) b }
    ensures { CanRaise (B.state on.now) tree.now }
{}
