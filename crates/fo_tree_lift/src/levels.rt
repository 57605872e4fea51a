//! Levels are put above the top of a source, which may be an older one.
ghost use Rattle.std.specs.Prelude.{◌≡◌, ◌⊎◌, ◌+◌, ◌*◌, ◌<◌, ◌≤◌, ℕ, true};
ghost use Rattle.fo_image.specs.declared.types.State.TheVariants.{Live};
ghost use Rattle.fo_image.specs.declared.types.Pointer.TheVariants.{Local};
ghost use Rattle.fo_ports.specs.of_crash.Images.{Reaches, to_block};
ghost use Rattle.fo_ports.specs.State.{none};
ghost use Rattle.fo_ports.specs.Sources.{Dirties};
ghost use Rattle.fo_tree_read.specs.Tree.{kind_at};
ghost use Rattle.fo_tree_look.specs.Source.{Over, HasBlock, IsPrepared, Ready, IsTopCurrent};
ghost use Rattle.fo_tree_grow.specs.of_tree_down.Way.{with_top};
ghost use Rattle.fo_tree_grow.specs.of_tree_down.Alike.{KeepsAlike};
ghost use Rattle.fo_tree_grow.specs.of_tree_down.Clear.{EndsClear};
ghost use Rattle.fo_tree_grow.specs.of_tree_own.Shown.{ShowsNoMore};
ghost use Rattle.fo_tree_grow.specs.of_tree_raise.Levels.{grown};
ghost use Rattle.fo_tree_lift.specs.Lift.{Lifts};

use fo_image::Pointer;
use fo_ports::Blocks;
use fo_tree_grow::{copy_top, is_current, raise_levels};
use fo_tree_look::Kept;
use fo_tree_read::Tree;

/// Puts so many levels above the top of a source, an older one of which is copied first, and gives the new top. It is put nowhere yet.
pub fn lift<B: Blocks>(tree: &Tree, kept: &[Kept], on: &mut B, levels: u8) -> Pointer
    requires over { (limit : ℕ) × Over (B.state on.old) tree.now kept.now limit }
    requires some { (0 < tree.now.size) × (0 < levels) }
    requires level { tree.now.depth + levels ≤ 4 }
    requires ready { Ready (B.state on.old) tree.now kept.now 0 tree.now.top }
    requires clear { EndsClear (B.state on.old) tree.now kept.now }
    requires linked { (B.state on.old).tells → tree.now.dir ≡ true → (b : ℕ) → HasBlock (B.state on.old) tree.now b → Reaches (B.state on.old).now (to_block 1) b }
    requires spare { (IsTopCurrent (B.state on.old) tree.now × (levels ≤ (B.state on.old).spare)) ⊎ (levels < (B.state on.old).spare) }
    ensures lifts { Lifts (B.state on.old) (B.state on.new) tree.now kept.now levels result }
    ensures spare { (B.state on.old).spare ≤ (B.state on.new).spare + (levels + 1) }
    ensures dirties { Dirties (2 * (levels + 1)) none (B.state on.old) (B.state on.new) }
    ensures less { IsTopCurrent (B.state on.old) tree.now → (B.state on.old).spare ≤ (B.state on.new).spare + levels }
    ensures dirties_less { IsTopCurrent (B.state on.old) tree.now → Dirties (2 * levels) none (B.state on.old) (B.state on.new) }
    ensures shown { ShowsNoMore (B.state on.old).may_leave (B.state on.new).may_leave }
    ensures alike { KeepsAlike (B.state on.old) (B.state on.new) tree.now (grown tree.now levels result) }
    ensures keeps { B.keeps on.old on.new }
{
    match tree.top {
        Pointer::Local(at) => lift_local(tree, kept, on, levels, at),
        _ => lift_top(tree, kept, on, levels),
    }
}

/// Puts levels above a top that stands on the device.
fn lift_local<B: Blocks>(tree: &Tree, kept: &[Kept], on: &mut B, levels: u8, at: u32) -> Pointer
    requires over { (limit : ℕ) × Over (B.state on.old) tree.now kept.now limit }
    requires some { (0 < tree.now.size) × (0 < levels) }
    requires level { tree.now.depth + levels ≤ 4 }
    requires is { tree.now.top ≡ Local at }
    requires ready { IsPrepared (B.state on.old) (kind_at tree.now.dir tree.now.depth) tree.now.tag at }
    requires clear { EndsClear (B.state on.old) tree.now kept.now }
    requires linked { (B.state on.old).tells → tree.now.dir ≡ true → (b : ℕ) → HasBlock (B.state on.old) tree.now b → Reaches (B.state on.old).now (to_block 1) b }
    requires spare { (((B.state on.old).label at).epoch ≡ (B.state on.old).high × (levels ≤ (B.state on.old).spare)) ⊎ (levels < (B.state on.old).spare) }
    ensures lifts { Lifts (B.state on.old) (B.state on.new) tree.now kept.now levels result }
    ensures spare { (B.state on.old).spare ≤ (B.state on.new).spare + (levels + 1) }
    ensures dirties { Dirties (2 * (levels + 1)) none (B.state on.old) (B.state on.new) }
    ensures less { ((B.state on.old).label at).epoch ≡ (B.state on.old).high → (B.state on.old).spare ≤ (B.state on.new).spare + levels }
    ensures dirties_less { ((B.state on.old).label at).epoch ≡ (B.state on.old).high → Dirties (2 * levels) none (B.state on.old) (B.state on.new) }
    ensures shown { ShowsNoMore (B.state on.old).may_leave (B.state on.new).may_leave }
    ensures alike { KeepsAlike (B.state on.old) (B.state on.new) tree.now (grown tree.now levels result) }
    ensures keeps { B.keeps on.old on.new }
{
    if is_current(on, at) {
        lift_top(tree, kept, on, levels)
    } else {
        lift_copy(tree, kept, on, levels, at)
    }
}

/// Puts levels above the top itself, where that is current or there is none.
fn lift_top<B: Blocks>(tree: &Tree, kept: &[Kept], on: &mut B, levels: u8) -> Pointer
    requires over { (limit : ℕ) × Over (B.state on.old) tree.now kept.now limit }
    requires some { (0 < tree.now.size) × (0 < levels) }
    requires level { tree.now.depth + levels ≤ 4 }
    requires current { (b : ℕ) → tree.now.top ≡ Local b → (((B.state on.old).label b).state ≡ Live) × (((B.state on.old).label b).epoch ≡ (B.state on.old).high) }
    requires clear { EndsClear (B.state on.old) tree.now kept.now }
    requires linked { (B.state on.old).tells → tree.now.dir ≡ true → (b : ℕ) → HasBlock (B.state on.old) tree.now b → Reaches (B.state on.old).now (to_block 1) b }
    requires spare { levels ≤ (B.state on.old).spare }
    ensures lifts { Lifts (B.state on.old) (B.state on.new) tree.now kept.now levels result }
    ensures spare { (B.state on.new).spare + levels ≡ (B.state on.old).spare }
    ensures dirties { Dirties (2 * levels) none (B.state on.old) (B.state on.new) }
    ensures shown { ShowsNoMore (B.state on.old).may_leave (B.state on.new).may_leave }
    ensures alike { KeepsAlike (B.state on.old) (B.state on.new) tree.now (grown tree.now levels result) }
    ensures keeps { B.keeps on.old on.new }
{
    let _ = kept;
    raise_levels(tree, on, levels)
}

/// Puts levels above a copy of an older top.
fn lift_copy<B: Blocks>(tree: &Tree, kept: &[Kept], on: &mut B, levels: u8, at: u32) -> Pointer
    requires over { (limit : ℕ) × Over (B.state on.old) tree.now kept.now limit }
    requires some { (0 < tree.now.size) × (0 < levels) }
    requires level { tree.now.depth + levels ≤ 4 }
    requires is { tree.now.top ≡ Local at }
    requires ready { IsPrepared (B.state on.old) (kind_at tree.now.dir tree.now.depth) tree.now.tag at }
    requires older { ((B.state on.old).label at).epoch < (B.state on.old).high }
    requires clear { EndsClear (B.state on.old) tree.now kept.now }
    requires spare { levels < (B.state on.old).spare }
    ensures lifts { Lifts (B.state on.old) (B.state on.new) tree.now kept.now levels result }
    ensures spare { (B.state on.new).spare + (levels + 1) ≡ (B.state on.old).spare }
    ensures dirties { Dirties (2 * (levels + 1)) none (B.state on.old) (B.state on.new) }
    ensures shown { ShowsNoMore (B.state on.old).may_leave (B.state on.new).may_leave }
    ensures alike { KeepsAlike (B.state on.old) (B.state on.new) tree.now (grown tree.now levels result) }
    ensures keeps { B.keeps on.old on.new }
{
    let copy = copy_top(tree, kept, on, at);
    let below = below_copy(tree, copy);
    raise_levels(&below, on, levels)
}

/// The tree below a copy of its top.
fn below_copy(tree: &Tree, copy: u32) -> Tree
    ensures { result ≡ with_top tree.now copy }
{
    Tree {
        dir: tree.dir,
        tag: tree.tag,
        rank: tree.rank,
        depth: tree.depth,
        size: tree.size,
        top: Pointer::Local(copy),
    }
}
