//! The way to a block is made current.
ghost use Rattle.std.specs.Prelude.{◌≡◌, ◌≢◌, ◌⊎◌, ◌+◌, ◌-◌, ◌*◌, ◌/◌, ◌%◌, ◌^◌, ◌<◌, ◌≤◌, ℕ, List};
ghost use Rattle.fo_image.specs.declared.types.Pointer.TheVariants.{Local};
ghost use Rattle.fo_tree_look.specs.of_ports.Sources.{Made, Changes, Dirties};
ghost use Rattle.fo_tree_look.specs.of_tree_read.Tree.{Hangs, kind_at, block_at, above};
ghost use Rattle.fo_tree_look.specs.Source.{IsTold, Over, HasBlock, Prepared, WayReady, IsTopCurrent};
ghost use Rattle.fo_tree_own.specs.of_shown.Shown.{ShowsNoMore};
ghost use Rattle.fo_tree_down.specs.Clear.{EndsClear, last_leaf};
ghost use Rattle.fo_tree_down.specs.Alike.{KeepsAlike};
ghost use Rattle.fo_tree_down.specs.Way.{OnWay, Comes, Leads, IsTopOf, Replaces, StaysBeside, WayCurrent, CurrentBut, with_top, HasWay, AddsWay};

use crate::top::own_top;
use fo_tree_look::{Blocks, Kept, Tree};
use fo_tree_own::own_block;

/// How many pointers a block has.
const SLOTS: u64 = 409;

/// Where a way was made current: its top, and the block at its end.
#[derive(Clone, Copy)]
pub struct Current {
    pub top: u32,
    pub at: u32,
}

/// Makes block `k` of those so many steps below the top current, with all on the way to it. A new top is put nowhere yet.
pub fn own_way<B: Blocks>(tree: &Tree, kept: &[Kept], on: &mut B, down: u8, k: u64) -> Current
    requires over { (limit : ℕ) × Over (B.state on.old) tree.now kept.now limit }
    requires down { (down ≤ tree.now.depth) × (k < 409 ^ down) }
    requires ready { WayReady (B.state on.old) tree.now kept.now down k }
    requires spare { (IsTopCurrent (B.state on.old) tree.now × (down ≤ (B.state on.old).spare)) ⊎ (down < (B.state on.old).spare) }
    ensures comes { Comes (B.state on.old) (B.state on.new) tree.now kept.now down k result.at }
    ensures leads { block_at (B.state on.new) (with_top tree.now result.top) down k ≡ Local result.at }
    ensures replaces { Replaces (B.state on.old) (B.state on.new) tree.now down k result.at }
    ensures top { IsTopOf (B.state on.old) (B.state on.new) tree.now result.top }
    ensures stead { (x : ℕ) → Made (B.state on.old) (B.state on.new) result.top → (B.state on.new).instead result.top x → tree.now.top ≡ Local x }
    ensures beside { (B.state on.old).tells → StaysBeside (B.state on.old) (B.state on.new) tree.now (with_top tree.now result.top) down k }
    ensures over { 0 < tree.now.size → (limit : ℕ) → Over (B.state on.old) tree.now kept.now limit → Over (B.state on.new) (with_top tree.now result.top) kept.now limit }
    ensures owns { (B.state on.old).tells → (b : ℕ) → (HasBlock (B.state on.new) (with_top tree.now result.top) b → HasBlock (B.state on.old) tree.now b ⊎ Made (B.state on.old) (B.state on.new) b) × (Made (B.state on.old) (B.state on.new) b → HasBlock (B.state on.new) (with_top tree.now result.top) b) }
    ensures stays { (B.state on.old).tells → (b : ℕ) → HasBlock (B.state on.old) tree.now b → ((B.state on.old).label b).epoch ≡ (B.state on.old).high → HasBlock (B.state on.new) (with_top tree.now result.top) b }
    ensures still { (limit o n : ℕ) → Prepared (B.state on.old) tree.now kept.now limit o n → Prepared (B.state on.new) (with_top tree.now result.top) kept.now limit o n }
    ensures ways { (j b : ℕ) → WayReady (B.state on.old) tree.now kept.now tree.now.depth j → OnWay (B.state on.new) (with_top tree.now result.top) tree.now.depth j b → OnWay (B.state on.old) tree.now tree.now.depth j b ⊎ Made (B.state on.old) (B.state on.new) b }
    ensures current { WayCurrent (B.state on.new) (with_top tree.now result.top) down k }
    ensures clear { down ≡ tree.now.depth → 8192 * k < tree.now.size → (B.state on.old).tells ⊎ (k ≡ last_leaf tree.now.size) → EndsClear (B.state on.old) tree.now kept.now → EndsClear (B.state on.new) (with_top tree.now result.top) kept.now }
    ensures changes { Changes tree.now.tag (HasBlock (B.state on.old) tree.now) (λ b. HasBlock (B.state on.old) tree.now b × (((B.state on.old).label b).kind ≢ kind_at tree.now.dir 0)) (B.state on.old) (B.state on.new) }
    ensures spare { (B.state on.old).spare ≤ (B.state on.new).spare + (down + 1) }
    ensures less { IsTopCurrent (B.state on.old) tree.now → (B.state on.old).spare ≤ (B.state on.new).spare + down }
    ensures used { (j : ℕ) → WayCurrent (B.state on.old) tree.now down j → j ≤ k → k ≤ j + 1 → (B.state on.old).spare + (j + above down j) ≤ (B.state on.new).spare + (k + above down k) }
    ensures dirties { Dirties (2 * (down + 1)) (λ b. OnWay (B.state on.new) (with_top tree.now result.top) down k b) (B.state on.old) (B.state on.new) }
    ensures dirties_used { (blocks : List ℕ) (j : ℕ) → WayCurrent (B.state on.old) tree.now down j → HasWay blocks (B.state on.old) tree.now down j → j ≤ k → k ≤ j + 1 → AddsWay (2 * (k + above down k - (j + above down j))) blocks (B.state on.old) (B.state on.new) (with_top tree.now result.top) down k }
    ensures shown { ShowsNoMore (B.state on.old).may_leave (B.state on.new).may_leave }
    ensures alike { KeepsAlike (B.state on.old) (B.state on.new) tree.now (with_top tree.now result.top) }
    ensures keeps { B.keeps on.old on.new }
{
    own_near(tree, kept, on, down, k)
}

/// Makes block `k` of those so many steps below the top current, with all on the way to it, where as many blocks may be made as aren't
/// current on that way.
pub fn own_near<B: Blocks>(tree: &Tree, kept: &[Kept], on: &mut B, down: u8, k: u64) -> Current
    requires over { (limit : ℕ) × Over (B.state on.old) tree.now kept.now limit }
    requires down { (down ≤ tree.now.depth) × (k < 409 ^ down) }
    requires ready { WayReady (B.state on.old) tree.now kept.now down k }
    requires spare { (c : ℕ) × CurrentBut (B.state on.old) tree.now c down k × (c ≤ (B.state on.old).spare) }
    ensures comes { Comes (B.state on.old) (B.state on.new) tree.now kept.now down k result.at }
    ensures leads { block_at (B.state on.new) (with_top tree.now result.top) down k ≡ Local result.at }
    ensures replaces { Replaces (B.state on.old) (B.state on.new) tree.now down k result.at }
    ensures top { IsTopOf (B.state on.old) (B.state on.new) tree.now result.top }
    ensures stead { (x : ℕ) → Made (B.state on.old) (B.state on.new) result.top → (B.state on.new).instead result.top x → tree.now.top ≡ Local x }
    ensures beside { (B.state on.old).tells → StaysBeside (B.state on.old) (B.state on.new) tree.now (with_top tree.now result.top) down k }
    ensures over { 0 < tree.now.size → (limit : ℕ) → Over (B.state on.old) tree.now kept.now limit → Over (B.state on.new) (with_top tree.now result.top) kept.now limit }
    ensures owns { (B.state on.old).tells → (b : ℕ) → (HasBlock (B.state on.new) (with_top tree.now result.top) b → HasBlock (B.state on.old) tree.now b ⊎ Made (B.state on.old) (B.state on.new) b) × (Made (B.state on.old) (B.state on.new) b → HasBlock (B.state on.new) (with_top tree.now result.top) b) }
    ensures stays { (B.state on.old).tells → (b : ℕ) → HasBlock (B.state on.old) tree.now b → ((B.state on.old).label b).epoch ≡ (B.state on.old).high → HasBlock (B.state on.new) (with_top tree.now result.top) b }
    ensures still { (limit o n : ℕ) → Prepared (B.state on.old) tree.now kept.now limit o n → Prepared (B.state on.new) (with_top tree.now result.top) kept.now limit o n }
    ensures ways { (j b : ℕ) → WayReady (B.state on.old) tree.now kept.now tree.now.depth j → OnWay (B.state on.new) (with_top tree.now result.top) tree.now.depth j b → OnWay (B.state on.old) tree.now tree.now.depth j b ⊎ Made (B.state on.old) (B.state on.new) b }
    ensures current { WayCurrent (B.state on.new) (with_top tree.now result.top) down k }
    ensures clear { down ≡ tree.now.depth → 8192 * k < tree.now.size → (B.state on.old).tells ⊎ (k ≡ last_leaf tree.now.size) → EndsClear (B.state on.old) tree.now kept.now → EndsClear (B.state on.new) (with_top tree.now result.top) kept.now }
    ensures changes { Changes tree.now.tag (HasBlock (B.state on.old) tree.now) (λ b. HasBlock (B.state on.old) tree.now b × (((B.state on.old).label b).kind ≢ kind_at tree.now.dir 0)) (B.state on.old) (B.state on.new) }
    ensures spare { (B.state on.old).spare ≤ (B.state on.new).spare + (down + 1) }
    ensures less { IsTopCurrent (B.state on.old) tree.now → (B.state on.old).spare ≤ (B.state on.new).spare + down }
    ensures used { (j : ℕ) → WayCurrent (B.state on.old) tree.now down j → j ≤ k → k ≤ j + 1 → (B.state on.old).spare + (j + above down j) ≤ (B.state on.new).spare + (k + above down k) }
    ensures dirties { Dirties (2 * (down + 1)) (λ b. OnWay (B.state on.new) (with_top tree.now result.top) down k b) (B.state on.old) (B.state on.new) }
    ensures dirties_used { (blocks : List ℕ) (j : ℕ) → WayCurrent (B.state on.old) tree.now down j → HasWay blocks (B.state on.old) tree.now down j → j ≤ k → k ≤ j + 1 → AddsWay (2 * (k + above down k - (j + above down j))) blocks (B.state on.old) (B.state on.new) (with_top tree.now result.top) down k }
    ensures few { (c : ℕ) → CurrentBut (B.state on.old) tree.now c down k → (B.state on.old).spare ≤ (B.state on.new).spare + c }
    ensures shown { ShowsNoMore (B.state on.old).may_leave (B.state on.new).may_leave }
    ensures alike { KeepsAlike (B.state on.old) (B.state on.new) tree.now (with_top tree.now result.top) }
    ensures keeps { B.keeps on.old on.new }
{
    own_down(tree, kept, on, down, k)
}

/// Makes block `k` of those so many steps below the top current, and all on the way to it, one below another.
pub fn own_down<B: Blocks>(tree: &Tree, kept: &[Kept], on: &mut B, down: u8, k: u64) -> Current
    requires hangs { Hangs (B.state on.old) tree.now }
    requires down { (down ≤ tree.now.depth) × (k < 409 ^ down) }
    requires ready { WayReady (B.state on.old) tree.now kept.now down k }
    requires told { (B.state on.old).tells → (b : ℕ) → OnWay (B.state on.old) tree.now down k b → IsTold (B.state on.old) tree.now.top b }
    requires spare { (c : ℕ) × CurrentBut (B.state on.old) tree.now c down k × (c ≤ (B.state on.old).spare) }
    ensures comes { Comes (B.state on.old) (B.state on.new) tree.now kept.now down k result.at }
    ensures leads { Leads (B.state on.old) (B.state on.new) tree.now kept.now result.top down k result.at }
    ensures given { (b : ℕ) → Made (B.state on.old) (B.state on.new) b → OnWay (B.state on.new) (with_top tree.now result.top) down k b }
    ensures top { IsTopOf (B.state on.old) (B.state on.new) tree.now result.top }
    ensures stead { (x : ℕ) → Made (B.state on.old) (B.state on.new) result.top → (B.state on.new).instead result.top x → tree.now.top ≡ Local x }
    ensures spare { (B.state on.old).spare ≤ (B.state on.new).spare + (down + 1) }
    ensures less { IsTopCurrent (B.state on.old) tree.now → (B.state on.old).spare ≤ (B.state on.new).spare + down }
    ensures used { (j : ℕ) → WayCurrent (B.state on.old) tree.now down j → j ≤ k → k ≤ j + 1 → (B.state on.old).spare + (j + above down j) ≤ (B.state on.new).spare + (k + above down k) }
    ensures dirties { Dirties (2 * (down + 1)) (λ b. OnWay (B.state on.new) (with_top tree.now result.top) down k b) (B.state on.old) (B.state on.new) }
    ensures dirties_used { (blocks : List ℕ) (j : ℕ) → WayCurrent (B.state on.old) tree.now down j → HasWay blocks (B.state on.old) tree.now down j → j ≤ k → k ≤ j + 1 → AddsWay (2 * (k + above down k - (j + above down j))) blocks (B.state on.old) (B.state on.new) (with_top tree.now result.top) down k }
    ensures few { (c : ℕ) → CurrentBut (B.state on.old) tree.now c down k → (B.state on.old).spare ≤ (B.state on.new).spare + c }
    ensures shown { ShowsNoMore (B.state on.old).may_leave (B.state on.new).may_leave }
    ensures alike { KeepsAlike (B.state on.old) (B.state on.new) tree.now (with_top tree.now result.top) }
    ensures keeps { B.keeps on.old on.new }
{
    if down == 0 {
        let top = own_top(tree, kept, on);
        return Current { top, at: top };
    }
    let above = own_down(tree, kept, on, down - 1, k / SLOTS);
    let at = own_block(tree, kept, on, above.at, tree.depth - down, k);
    Current { top: above.top, at }
}
