//! Levels are put above the top of a source.
ghost use Rattle.std.specs.Prelude.{◌≡◌, ◌⊎◌, ◌+◌, ◌*◌, ◌^◌, ◌<◌, ◌≤◌, ℕ, List};
ghost use Rattle.fo_image.specs.declared.types.Pointer.{Pointer};
ghost use Rattle.fo_image.specs.declared.types.Pointer.TheVariants.{Local};
ghost use Rattle.fo_ports.specs.State.{none};
ghost use Rattle.fo_ports.specs.Sources.{Made, Changes, ComesFor, Dirties};
ghost use Rattle.fo_tree_read.specs.Tree.{block_at};
ghost use Rattle.fo_tree_look.specs.declared.ways.Kept.{Kept};
ghost use Rattle.fo_tree_look.specs.Source.{HasBlock, Prepared};
ghost use Rattle.fo_tree_down.specs.Clear.{EndsClear};
ghost use Rattle.fo_tree_down.specs.Alike.{KeepsAlike};
ghost use Rattle.fo_tree_down.specs.of_tree_own.Shown.{ShowsNoMore};
ghost use Rattle.fo_tree_raise.specs.Raise.{CanRaise, Bears};
ghost use Rattle.fo_tree_raise.specs.Levels.{Adds, IsTopAfter, InStead, KeepsWays, grown};

use crate::raise::raise_once;
use fo_image::Pointer;
use fo_ports::Blocks;
use fo_tree_read::Tree;

/// Puts so many levels above the source's top, and gives the new one. It is put nowhere yet.
pub fn raise_levels<B: Blocks>(tree: &Tree, on: &mut B, levels: u8) -> Pointer
    requires top { CanRaise (B.state on.old) tree.now }
    requires level { tree.now.depth + levels ≤ 4 }
    requires low { tree.now.rank < 2 ^ 31 }
    requires spare { levels ≤ (B.state on.old).spare }
    ensures top { IsTopAfter (B.state on.old) (B.state on.new) tree.now levels result }
    ensures adds { Adds tree.now.tag (λ b. tree.now.top ≡ Local b) (B.state on.old) (B.state on.new) }
    ensures instead { (b x : ℕ) → Made (B.state on.old) (B.state on.new) b → (B.state on.new).instead b x → InStead (B.state on.old) tree.now x }
    ensures comes { (B.state on.old).tells → (from : Pointer) → ComesFor (B.state on.old) tree.now.top from → ComesFor (B.state on.new) result from }
    ensures only { (B.state on.old).tells → (y x : ℕ) → (B.state on.new).instead y x → (result ≡ Local y) ⊎ ((B.state on.old).instead y x × (tree.now.top ≡ Local y → ⊥)) }
    ensures changes { Changes tree.now.tag (HasBlock (B.state on.old) tree.now) none (B.state on.old) (B.state on.new) }
    ensures again { CanRaise (B.state on.new) (grown tree.now levels result) }
    ensures bears { (kept : List Kept) → 0 < tree.now.size → Bears (B.state on.old) tree.now kept → Bears (B.state on.new) (grown tree.now levels result) kept }
    ensures leaves { (B.state on.old).tells → (kept : List Kept) → 0 < tree.now.size → Bears (B.state on.old) tree.now kept → (k : ℕ) → k < 409 ^ tree.now.depth → block_at (B.state on.new) (grown tree.now levels result) (tree.now.depth + levels) k ≡ block_at (B.state on.old) tree.now tree.now.depth k }
    ensures owns { (B.state on.old).tells → (kept : List Kept) → 0 < tree.now.size → Bears (B.state on.old) tree.now kept → (b : ℕ) → (HasBlock (B.state on.new) (grown tree.now levels result) b → HasBlock (B.state on.old) tree.now b ⊎ Made (B.state on.old) (B.state on.new) b) × (Made (B.state on.old) (B.state on.new) b ⊎ HasBlock (B.state on.old) tree.now b → HasBlock (B.state on.new) (grown tree.now levels result) b) }
    ensures still { (kept : List Kept) (limit o n : ℕ) → tree.now.size ≤ 8192 * 409 ^ tree.now.depth → Prepared (B.state on.old) tree.now kept limit o n → Prepared (B.state on.new) (grown tree.now levels result) kept limit o n }
    ensures clear { (kept : List Kept) → 0 < tree.now.size → tree.now.size ≤ 8192 * 409 ^ tree.now.depth → EndsClear (B.state on.old) tree.now kept → EndsClear (B.state on.new) (grown tree.now levels result) kept }
    ensures ways { (kept : List Kept) → KeepsWays (B.state on.old) (B.state on.new) tree.now kept levels result }
    ensures spare { (B.state on.new).spare + levels ≡ (B.state on.old).spare }
    ensures dirties { Dirties (2 * levels) none (B.state on.old) (B.state on.new) }
    ensures shown { ShowsNoMore (B.state on.old).may_leave (B.state on.new).may_leave }
    ensures alike { KeepsAlike (B.state on.old) (B.state on.new) tree.now (grown tree.now levels result) }
    ensures keeps { B.keeps on.old on.new }
{
    if levels == 0 {
        return tree.top;
    }
    let below = raise_levels(tree, on, levels - 1);
    let lower = with_levels(tree, levels - 1, below);
    let top = raise_once(&lower, on);
    Pointer::Local(top)
}

/// The tree below this pointer, with so many levels more.
fn with_levels(tree: &Tree, levels: u8, top: Pointer) -> Tree
    requires level { tree.now.depth + levels ≤ 4 }
    ensures { result ≡ grown tree.now levels top }
{
    Tree {
        dir: tree.dir,
        tag: tree.tag,
        rank: tree.rank,
        depth: tree.depth + levels,
        size: tree.size,
        top,
    }
}
