//! An older top of a source is copied, before a level is put above it.
ghost use Rattle.std.specs.Prelude.{◌≡◌, ◌≢◌, ◌⊎◌, ◌+◌, ◌<◌, ◌≤◌, ℕ};
ghost use Rattle.fo_image.specs.declared.types.Pointer.TheVariants.{Local};
ghost use Rattle.fo_ports.specs.Sources.{Made, Changes, Dirties};
ghost use Rattle.fo_tree_read.specs.Tree.{kind_at};
ghost use Rattle.fo_tree_look.specs.Source.{Over, HasBlock, IsPrepared, Prepared, WayReady};
ghost use Rattle.fo_tree_down.specs.Way.{OnWay, Comes, IsTopOf, with_top};
ghost use Rattle.fo_tree_down.specs.Clear.{EndsClear};
ghost use Rattle.fo_tree_down.specs.Alike.{KeepsAlike};
ghost use Rattle.fo_tree_down.specs.of_tree_own.Shown.{ShowsNoMore};
ghost use Rattle.fo_tree_raise.specs.Raise.{CanRaise};
ghost use Rattle.fo_tree_raise.specs.Levels.{Adds};

use fo_ports::Blocks;
use fo_tree_look::Kept;
use fo_tree_read::Tree;

/// Copies a source's older top, and gives the copy's address. It is put nowhere yet, and a level may be put above it.
pub fn copy_top<B: Blocks>(tree: &Tree, kept: &[Kept], on: &mut B, at: u32) -> u32
    requires over { (limit : ℕ) × Over (B.state on.old) tree.now kept.now limit }
    requires is { tree.now.top ≡ Local at }
    requires ready { IsPrepared (B.state on.old) (kind_at tree.now.dir tree.now.depth) tree.now.tag at }
    requires older { ((B.state on.old).label at).epoch < (B.state on.old).high }
    requires spare { 0 < (B.state on.old).spare }
    ensures comes { Comes (B.state on.old) (B.state on.new) tree.now kept.now 0 0 result }
    ensures made { Made (B.state on.old) (B.state on.new) result × (B.state on.new).apart result }
    ensures given { (b : ℕ) → Made (B.state on.old) (B.state on.new) b → b ≡ result }
    ensures top { IsTopOf (B.state on.old) (B.state on.new) tree.now result }
    ensures changes { Changes tree.now.tag (HasBlock (B.state on.old) tree.now) (λ b. HasBlock (B.state on.old) tree.now b × (((B.state on.old).label b).kind ≢ kind_at tree.now.dir 0)) (B.state on.old) (B.state on.new) }
    ensures adds { Adds tree.now.tag (λ b. tree.now.top ≡ Local b) (B.state on.old) (B.state on.new) }
    ensures under { CanRaise (B.state on.new) (with_top tree.now result) }
    ensures over { (limit : ℕ) → Over (B.state on.old) tree.now kept.now limit → Over (B.state on.new) (with_top tree.now result) kept.now limit }
    ensures still { (limit o n : ℕ) → Prepared (B.state on.old) tree.now kept.now limit o n → Prepared (B.state on.new) (with_top tree.now result) kept.now limit o n }
    ensures ways { (j b : ℕ) → WayReady (B.state on.old) tree.now kept.now tree.now.depth j → WayReady (B.state on.new) (with_top tree.now result) kept.now tree.now.depth j × (OnWay (B.state on.new) (with_top tree.now result) tree.now.depth j b → OnWay (B.state on.old) tree.now tree.now.depth j b ⊎ Made (B.state on.old) (B.state on.new) b) }
    ensures clear { EndsClear (B.state on.old) tree.now kept.now → EndsClear (B.state on.new) (with_top tree.now result) kept.now }
    ensures spare { (B.state on.new).spare + 1 ≡ (B.state on.old).spare }
    ensures dirties { Dirties 2 (λ b. b ≡ result) (B.state on.old) (B.state on.new) }
    ensures shown { ShowsNoMore (B.state on.old).may_leave (B.state on.new).may_leave }
    ensures alike { KeepsAlike (B.state on.old) (B.state on.new) tree.now (with_top tree.now result) }
    ensures keeps { B.keeps on.old on.new }
{
    let _ = tree;
    let _ = kept;
    on.copy(at)
}
