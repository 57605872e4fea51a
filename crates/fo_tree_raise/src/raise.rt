//! A new top is raised over the top of a source.
ghost use Rattle.std.specs.Prelude.{◌≡◌, ◌⊎◌, ◌*◌, ◌^◌, ◌<◌, ◌≤◌, ℕ, List};
ghost use Rattle.fo_image.specs.declared.types.Pointer.{Pointer};
ghost use Rattle.fo_image.specs.declared.types.Pointer.TheVariants.{Local};
ghost use Rattle.fo_ports.specs.Sources.{ComesFor};
ghost use Rattle.fo_tree_read.specs.Tree.{Hangs};
ghost use Rattle.fo_tree_look.specs.declared.ways.Kept.{Kept};
ghost use Rattle.fo_tree_look.specs.Source.{Prepared};
ghost use Rattle.fo_tree_down.specs.Clear.{EndsClear};
ghost use Rattle.fo_tree_down.specs.Alike.{KeepsAlike};
ghost use Rattle.fo_tree_down.specs.of_tree_own.Shown.{ShowsNoMore};
ghost use Rattle.fo_tree_raise.specs.Raise.{CanRaise, Raises, raised, Bears, SameBelow};

use fo_crash::Slot;
use fo_ports::Blocks;
use fo_tree_down::kind_at;
use fo_tree_read::Tree;

/// Gives out a block one level above the source's top, leads its first slot there, and gives its address. It is put nowhere yet.
pub fn raise_once<B: Blocks>(tree: &Tree, on: &mut B) -> u32
    requires top { CanRaise (B.state on.old) tree.now }
    requires level { tree.now.depth < 4 }
    requires low { tree.now.rank < 2 ^ 31 }
    requires spare { 0 < (B.state on.old).spare }
    ensures raises { Raises tree.now result (B.state on.old) (B.state on.new) }
    ensures again { CanRaise (B.state on.new) (raised tree.now result) }
    ensures below { (B.state on.old).tells → Hangs (B.state on.old) tree.now → SameBelow (B.state on.old) (B.state on.new) tree.now result }
    ensures comes { (B.state on.old).tells → (from : Pointer) → ComesFor (B.state on.old) tree.now.top from → ComesFor (B.state on.new) (Local result) from }
    ensures only { (B.state on.old).tells → (y x : ℕ) → (B.state on.new).instead y x → (y ≡ result) ⊎ ((B.state on.old).instead y x × (tree.now.top ≡ Local y → ⊥)) }
    ensures bears { (kept : List Kept) → 0 < tree.now.size → Bears (B.state on.old) tree.now kept → Bears (B.state on.new) (raised tree.now result) kept }
    ensures still { (kept : List Kept) (limit o n : ℕ) → tree.now.size ≤ 8192 * 409 ^ tree.now.depth → Prepared (B.state on.old) tree.now kept limit o n → Prepared (B.state on.new) (raised tree.now result) kept limit o n }
    ensures clear { (kept : List Kept) → 0 < tree.now.size → tree.now.size ≤ 8192 * 409 ^ tree.now.depth → EndsClear (B.state on.old) tree.now kept → EndsClear (B.state on.new) (raised tree.now result) kept }
    ensures shown { ShowsNoMore (B.state on.old).may_leave (B.state on.new).may_leave }
    ensures alike { KeepsAlike (B.state on.old) (B.state on.new) tree.now (raised tree.now result) }
    ensures keeps { B.keeps on.old on.new }
{
    let level = tree.depth + 1;
    let kind = kind_at(tree.dir, level);
    let made = on.new_block(kind, tree.tag, tree.rank + level as u32);
    on.put_slot(made, 0, Slot::Pointer(tree.top));
    made
}
