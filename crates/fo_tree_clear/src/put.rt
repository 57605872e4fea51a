//! Bytes are put into a leaf.
ghost use Rattle.std.specs.Prelude.{◌≡◌, ◌≢◌, ◌⊎◌, ◌+◌, ◌-◌, ◌*◌, ◌<◌, ◌≤◌, ℕ, List, length};
ghost use Rattle.fo_image.specs.declared.types.Pointer.TheVariants.{Local};
ghost use Rattle.fo_ports.specs.Sources.{Made, Changes, Dirties, Grows};
ghost use Rattle.fo_tree_leaf.specs.of_tree_read.Tree.{above};
ghost use Rattle.fo_tree_leaf.specs.of_tree_look.Source.{Over, HasBlock, IsPlainTree, WayReady, IsTopCurrent, form_of, leaves_of};
ghost use Rattle.fo_tree_leaf.specs.of_tree_down.Way.{OnWay, HasWay, AddsWay, IsTopOf, WayCurrent, CurrentBut, with_top};
ghost use Rattle.fo_tree_leaf.specs.of_tree_down.Alike.{KeepsAlike};
ghost use Rattle.fo_tree_leaf.specs.of_tree_down.Clear.{EndsClear, last_leaf};
ghost use Rattle.fo_tree_leaf.specs.of_tree_own.Shown.{ShowsNoMore};
ghost use Rattle.fo_tree_clear.specs.Put.{byte_here, Puts, IsInnerOr, LeafPut};
ghost use Rattle.fo_tree_clear.specs.Steps.{Steps};

use fo_ports::Blocks;
use fo_tree_leaf::{Current, Kept, Tree, own_near};

/// Puts bytes into leaf `i` from a place in it on, and gives its address and that of the top, which is put nowhere yet where it is new. The
/// leaf is made current first, with all on the way to it: as many blocks are taken as aren't current there.
pub fn put_leaf<B: Blocks>(
    tree: &Tree,
    kept: &[Kept],
    on: &mut B,
    i: u64,
    from: u32,
    piece: &[u8],
) -> Current
    requires over { (limit : ℕ) × Over (B.state on.old) tree.now kept.now limit }
    requires plain { IsPlainTree tree.now }
    requires inside { 8192 * i < tree.now.size }
    requires part { from + length piece.now ≤ 8192 }
    requires ready { WayReady (B.state on.old) tree.now kept.now tree.now.depth i }
    requires spare { (c : ℕ) × CurrentBut (B.state on.old) tree.now c tree.now.depth i × (c ≤ (B.state on.old).spare) }
    ensures put { (generation limit : ℕ) → Over (B.state on.old) tree.now kept.now limit → LeafPut (form_of tree.now generation limit) i result.at from piece.now (B.state on.old) (B.state on.new) (leaves_of (B.state on.old) tree.now kept.now limit) (leaves_of (B.state on.new) (with_top tree.now result.top) kept.now limit) }
    ensures bytes { (B.state on.old).tells → Puts (byte_here (B.state on.old) tree.now kept.now) (byte_here (B.state on.new) (with_top tree.now result.top) kept.now) (8192 * i + from) piece.now }
    ensures top { IsTopOf (B.state on.old) (B.state on.new) tree.now result.top }
    ensures stead { (x : ℕ) → Made (B.state on.old) (B.state on.new) result.top → (B.state on.new).instead result.top x → tree.now.top ≡ Local x }
    ensures over { (limit : ℕ) → Over (B.state on.old) tree.now kept.now limit → Over (B.state on.new) (with_top tree.now result.top) kept.now limit }
    ensures grows { (limit : ℕ) → Grows (B.state on.old) (B.state on.new) (leaves_of (B.state on.old) tree.now kept.now limit) (leaves_of (B.state on.new) (with_top tree.now result.top) kept.now limit) }
    ensures changes { Changes tree.now.tag (HasBlock (B.state on.old) tree.now) (IsInnerOr (B.state on.old) tree.now i) (B.state on.old) (B.state on.new) }
    ensures spare { (B.state on.old).spare ≤ (B.state on.new).spare + (tree.now.depth + 1) }
    ensures less { IsTopCurrent (B.state on.old) tree.now → (B.state on.old).spare ≤ (B.state on.new).spare + tree.now.depth }
    ensures steps { Steps tree.now.tag (OnWay (B.state on.old) tree.now tree.now.depth i) (OnWay (B.state on.old) tree.now tree.now.depth i) (B.state on.old) (B.state on.new) }
    ensures ways { (j b : ℕ) → WayReady (B.state on.old) tree.now kept.now tree.now.depth j → OnWay (B.state on.new) (with_top tree.now result.top) tree.now.depth j b → OnWay (B.state on.old) tree.now tree.now.depth j b ⊎ Made (B.state on.old) (B.state on.new) b }
    ensures stays { (B.state on.old).tells → (b : ℕ) → HasBlock (B.state on.old) tree.now b → ((B.state on.old).label b).epoch ≡ (B.state on.old).high → HasBlock (B.state on.new) (with_top tree.now result.top) b }
    ensures way { WayCurrent (B.state on.new) (with_top tree.now result.top) tree.now.depth i }
    ensures used { (j : ℕ) → WayCurrent (B.state on.old) tree.now tree.now.depth j → j ≤ i → i ≤ j + 1 → (B.state on.old).spare + (j + above tree.now.depth j) ≤ (B.state on.new).spare + (i + above tree.now.depth i) }
    ensures dirties { Dirties (2 * (tree.now.depth + 1)) (λ b. OnWay (B.state on.new) (with_top tree.now result.top) tree.now.depth i b) (B.state on.old) (B.state on.new) }
    ensures dirties_used { (blocks : List ℕ) (j : ℕ) → WayCurrent (B.state on.old) tree.now tree.now.depth j → HasWay blocks (B.state on.old) tree.now tree.now.depth j → j ≤ i → i ≤ j + 1 → AddsWay (2 * (i + above tree.now.depth i - (j + above tree.now.depth j))) blocks (B.state on.old) (B.state on.new) (with_top tree.now result.top) tree.now.depth i }
    ensures room { (B.state on.new).room ≡ (B.state on.old).room }
    ensures current { IsTopCurrent (B.state on.new) (with_top tree.now result.top) }
    ensures clear { (B.state on.old).tells ⊎ (i ≡ last_leaf tree.now.size) → EndsClear (B.state on.old) tree.now kept.now → EndsClear (B.state on.new) (with_top tree.now result.top) kept.now }
    ensures few { (c : ℕ) → CurrentBut (B.state on.old) tree.now c tree.now.depth i → (B.state on.old).spare ≤ (B.state on.new).spare + c }
    ensures shown { ShowsNoMore (B.state on.old).may_leave (B.state on.new).may_leave }
    ensures alike { KeepsAlike (B.state on.old) (B.state on.new) tree.now (with_top tree.now result.top) }
    ensures keeps { B.keeps on.old on.new }
{
    let current = own_near(tree, kept, on, tree.depth, i);
    on.put_bytes(current.at, from, piece);
    current
}
