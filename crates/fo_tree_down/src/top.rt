//! The top of a source is made current.
ghost use Rattle.std.specs.Prelude.{◌≡◌, ◌⊎◌, ◌+◌, ◌-◌, ◌^◌, ◌<◌, ◌≤◌, ℕ};
ghost use Rattle.fo_image.specs.declared.types.Pointer.TheVariants.{Nil, Local, Score as Held};
ghost use Rattle.fo_image.specs.Format.{kind_code};
ghost use Rattle.fo_tree_look.specs.of_tree_read.Tree.{Hangs, kind_at};
ghost use Rattle.fo_tree_look.specs.of_ports.State.{none};
ghost use Rattle.fo_tree_look.specs.of_ports.Sources.{Made, Dirties};
ghost use Rattle.fo_tree_look.specs.Source.{IsTold, IsPlainTree, IsPrepared, IsKept, Ready, IsTopCurrent};
ghost use Rattle.fo_tree_own.specs.of_shown.Shown.{ShowsNoMore};
ghost use Rattle.fo_tree_down.specs.Alike.{KeepsAlike};
ghost use Rattle.fo_tree_down.specs.Way.{Comes, IsTopOf, with_top};

use fo_image::{Pointer, Score};
use fo_tree_look::{Blocks, Kept, Tree};
use fo_tree_own::{fill_kept, is_current, kind_at};

/// Makes the top of a source current: it is the top itself where that is of the active epoch, a copy of an older one, one with what was
/// kept under a score, or one of zeros.
pub(crate) fn own_top<B: Blocks>(tree: &Tree, kept: &[Kept], on: &mut B) -> u32
    requires hangs { Hangs (B.state on.old) tree.now }
    requires ready { Ready (B.state on.old) tree.now kept.now 0 tree.now.top }
    requires told { (B.state on.old).tells → (b : ℕ) → tree.now.top ≡ Local b → IsTold (B.state on.old) tree.now.top b }
    requires spare { IsTopCurrent (B.state on.old) tree.now ⊎ (0 < (B.state on.old).spare) }
    ensures comes { (k : ℕ) → k < 409 ^ 0 → Comes (B.state on.old) (B.state on.new) tree.now kept.now 0 k result }
    ensures given { (b : ℕ) → Made (B.state on.old) (B.state on.new) b → b ≡ result }
    ensures top { IsTopOf (B.state on.old) (B.state on.new) tree.now result }
    ensures stead { (x : ℕ) → Made (B.state on.old) (B.state on.new) result → (B.state on.new).instead result x → tree.now.top ≡ Local x }
    ensures spare { (B.state on.old).spare ≤ (B.state on.new).spare + 1 }
    ensures dirties { Dirties 2 (λ b. b ≡ result) (B.state on.old) (B.state on.new) }
    ensures less { IsTopCurrent (B.state on.old) tree.now → (B.state on.old).spare ≤ (B.state on.new).spare }
    ensures dirties_less { IsTopCurrent (B.state on.old) tree.now → Dirties 0 none (B.state on.old) (B.state on.new) }
    ensures same { (b : ℕ) → tree.now.top ≡ Local b → ((B.state on.old).label b).epoch ≡ (B.state on.old).high → result ≡ b }
    ensures shown { ShowsNoMore (B.state on.old).may_leave (B.state on.new).may_leave }
    ensures alike { KeepsAlike (B.state on.old) (B.state on.new) tree.now (with_top tree.now result) }
    ensures keeps { B.keeps on.old on.new }
{
    match tree.top {
        Pointer::Nil => new_top(tree, kept, on),
        Pointer::Local(at) => own_local(tree, kept, on, at),
        Pointer::Score(score) => kept_top(tree, kept, on, &score),
    }
}

/// Makes a top that stands on the device current.
fn own_local<B: Blocks>(tree: &Tree, kept: &[Kept], on: &mut B, at: u32) -> u32
    requires hangs { Hangs (B.state on.old) tree.now }
    requires is { tree.now.top ≡ Local at }
    requires ready { IsPrepared (B.state on.old) (kind_at tree.now.dir tree.now.depth) tree.now.tag at }
    requires told { (B.state on.old).tells → IsTold (B.state on.old) tree.now.top at }
    requires spare { (((B.state on.old).label at).epoch ≡ (B.state on.old).high) ⊎ (0 < (B.state on.old).spare) }
    ensures comes { (k : ℕ) → k < 409 ^ 0 → Comes (B.state on.old) (B.state on.new) tree.now kept.now 0 k result }
    ensures given { (b : ℕ) → Made (B.state on.old) (B.state on.new) b → b ≡ result }
    ensures top { IsTopOf (B.state on.old) (B.state on.new) tree.now result }
    ensures stead { (x : ℕ) → Made (B.state on.old) (B.state on.new) result → (B.state on.new).instead result x → tree.now.top ≡ Local x }
    ensures spare { (B.state on.old).spare ≤ (B.state on.new).spare + 1 }
    ensures dirties { Dirties 2 (λ b. b ≡ result) (B.state on.old) (B.state on.new) }
    ensures less { ((B.state on.old).label at).epoch ≡ (B.state on.old).high → (B.state on.old).spare ≤ (B.state on.new).spare }
    ensures dirties_less { ((B.state on.old).label at).epoch ≡ (B.state on.old).high → Dirties 0 none (B.state on.old) (B.state on.new) }
    ensures same { ((B.state on.old).label at).epoch ≡ (B.state on.old).high → result ≡ at }
    ensures shown { ShowsNoMore (B.state on.old).may_leave (B.state on.new).may_leave }
    ensures alike { KeepsAlike (B.state on.old) (B.state on.new) tree.now (with_top tree.now result) }
    ensures keeps { B.keeps on.old on.new }
{
    let _ = tree;
    let _ = kept;
    if is_current(on, at) { at } else { on.copy(at) }
}

/// Makes a top of zeros, where there is none.
fn new_top<B: Blocks>(tree: &Tree, kept: &[Kept], on: &mut B) -> u32
    requires hangs { Hangs (B.state on.old) tree.now }
    requires is { tree.now.top ≡ Nil }
    requires spare { 0 < (B.state on.old).spare }
    ensures comes { (k : ℕ) → k < 409 ^ 0 → Comes (B.state on.old) (B.state on.new) tree.now kept.now 0 k result }
    ensures given { (b : ℕ) → Made (B.state on.old) (B.state on.new) b → b ≡ result }
    ensures top { IsTopOf (B.state on.old) (B.state on.new) tree.now result }
    ensures stead { (x : ℕ) → Made (B.state on.old) (B.state on.new) result → (B.state on.new).instead result x → tree.now.top ≡ Local x }
    ensures spare { (B.state on.old).spare ≤ (B.state on.new).spare + 1 }
    ensures dirties { Dirties 2 (λ b. b ≡ result) (B.state on.old) (B.state on.new) }
    ensures shown { ShowsNoMore (B.state on.old).may_leave (B.state on.new).may_leave }
    ensures alike { KeepsAlike (B.state on.old) (B.state on.new) tree.now (with_top tree.now result) }
    ensures keeps { B.keeps on.old on.new }
{
    let _ = kept;
    let kind = kind_at(tree.dir, tree.depth);
    on.new_block(kind, tree.tag, tree.rank + tree.depth as u32)
}

/// Makes a top with what was kept under a score.
fn kept_top<B: Blocks>(tree: &Tree, kept: &[Kept], on: &mut B, score: &Score) -> u32
    requires hangs { Hangs (B.state on.old) tree.now }
    requires is { tree.now.top ≡ Held score.now }
    requires kept { IsKept kept.now score.now (kind_code (kind_at tree.now.dir tree.now.depth)) }
    requires plain { IsPlainTree tree.now ⊎ (0 < tree.now.depth) }
    requires spare { 0 < (B.state on.old).spare }
    ensures comes { (k : ℕ) → k < 409 ^ 0 → Comes (B.state on.old) (B.state on.new) tree.now kept.now 0 k result }
    ensures given { (b : ℕ) → Made (B.state on.old) (B.state on.new) b → b ≡ result }
    ensures top { IsTopOf (B.state on.old) (B.state on.new) tree.now result }
    ensures stead { (x : ℕ) → Made (B.state on.old) (B.state on.new) result → (B.state on.new).instead result x → tree.now.top ≡ Local x }
    ensures spare { (B.state on.old).spare ≤ (B.state on.new).spare + 1 }
    ensures dirties { Dirties 2 (λ b. b ≡ result) (B.state on.old) (B.state on.new) }
    ensures shown { ShowsNoMore (B.state on.old).may_leave (B.state on.new).may_leave }
    ensures alike { KeepsAlike (B.state on.old) (B.state on.new) tree.now (with_top tree.now result) }
    ensures keeps { B.keeps on.old on.new }
{
    let kind = kind_at(tree.dir, tree.depth);
    let made = on.new_block(kind, tree.tag, tree.rank + tree.depth as u32);
    fill_kept(tree, kept, on, made, tree.depth, score);
    made
}
