//! What may be cleared.
ghost use Rattle.std.specs.Prelude.{◌≡◌, ℕ, true};
ghost use Rattle.fo_image.specs.declared.types.Pointer.TheVariants.{Local};
ghost use Rattle.fo_crash.specs.Images.{Reaches, to_block};
ghost use Rattle.fo_ports.specs.State.{Looks};
ghost use Rattle.fo_ports.specs.Sources.{IsReady, StaysReady};
ghost use Rattle.fo_tree_look.specs.Source.{Over, Extends};
ghost use Rattle.fo_tree_down.specs.Clear.{EndsClear, last_leaf};
ghost use Rattle.fo_tree_trim.specs.Behind.{HangsPast};
ghost use Rattle.fo_tree_trim.specs.Cut.{MayCut};

use fo_ports::Blocks;
use fo_tree_look::Kept;
use fo_tree_read::Tree;

/// What stands behind the end of a source may be cleared where the source hangs from block 1, as it does when a request begins, and after
/// each link. Of a source of entries nothing may be to come in the place of what hangs there, through its entries too, and no slot of that
/// may wait to be cleared.
pub fn may_cut<B: Blocks>(tree: &Tree, kept: &[Kept], on: &B)
    requires over { (limit : ℕ) × Over (B.state on.now) tree.now kept.now limit }
    requires linked { (B.state on.now).tells → (b : ℕ) → tree.now.top ≡ Local b → Reaches (B.state on.now).now (to_block 1) b }
    requires alone { (B.state on.now).tells → tree.now.dir ≡ true → (y b : ℕ) → HangsPast (B.state on.now) tree.now (last_leaf tree.now.size) b → (B.state on.now).instead y b → ⊥ }
    requires settled { (B.state on.now).tells → tree.now.dir ≡ true → (b j : ℕ) → HangsPast (B.state on.now) tree.now (last_leaf tree.now.size) b → (B.state on.now).clearing b j → ⊥ }
    ensures { (B.state on.now).tells → MayCut (B.state on.now) tree.now (last_leaf tree.now.size) }
{}

/// What is clear behind the end of a source stays so where its blocks are only looked at, and where those that are ready stay so.
pub fn stays_clear<B: Blocks>(tree: &Tree, kept: &[Kept], more: &[Kept], before: &B, after: &B)
    requires keeps { B.keeps before.now after.now }
    ensures looks { Looks (B.state before.now) (B.state after.now) → Extends (B.state after.now) kept.now more.now → EndsClear (B.state before.now) tree.now kept.now → EndsClear (B.state after.now) tree.now more.now }
    ensures stays { ((at : ℕ) → IsReady tree.now.tag (B.state before.now) at → StaysReady (B.state before.now) (B.state after.now) at) → EndsClear (B.state before.now) tree.now kept.now → EndsClear (B.state after.now) tree.now kept.now }
{}
