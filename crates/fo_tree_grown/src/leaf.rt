//! A leaf is made current, within the end of a source or past it.
ghost use Rattle.std.specs.Prelude.{◌≡◌, ◌≢◌, ◌⊎◌, ◌+◌, ◌*◌, ◌%◌, ◌^◌, ◌<◌, ◌≤◌, ℕ, true, false, max};
ghost use Rattle.fo_sparse.specs.Written.{resized};
ghost use Rattle.fo_ports.specs.of_crash.Images.{Reaches, to_block};
ghost use Rattle.fo_ports.specs.Sources.{Changes, Grows, Owned, Dirties, MayZero, IsEnough, depth_for, most_to_own};
ghost use Rattle.fo_tree_look.specs.Source.{Over, HasBlock, IsPlainTree, Prepared, IsTopCurrent, form_of, leaves_of};
ghost use Rattle.fo_tree_clear.specs.of_tree_down.Way.{IsTopOf, with_top};
ghost use Rattle.fo_tree_clear.specs.of_tree_down.Alike.{KeepsAlike};
ghost use Rattle.fo_tree_clear.specs.of_tree_down.Clear.{EndsClear};
ghost use Rattle.fo_tree_clear.specs.of_tree_own.Shown.{ShowsNoMore};
ghost use Rattle.fo_tree_lift.specs.Owns.{with_leaf};
ghost use Rattle.fo_tree_grown.specs.Zeroed.{OwnsZeroed};

use fo_base::BLOCK;
use fo_image::{Pointer, least_depth};
use fo_ports::Blocks;
use fo_tree_clear::{Current, clear_tail};
use fo_tree_lift::own_raised;
use fo_tree_lift::tree_grow::own_next;
use fo_tree_look::Kept;
use fo_tree_read::Tree;

/// Makes leaf `i` of a source current, and gives its address and that of the top, which is put nowhere yet where it is new. Where the
/// source ended before the leaf does, it ends with the leaf then, and zeros stand behind the end of data that it had; nothing may stand
/// behind its end then, and a source of entries that gets more levels is linked.
pub fn own_leaf<B: Blocks>(tree: &Tree, kept: &[Kept], on: &mut B, i: u32) -> Current
    requires over { (limit : ℕ) × Over (B.state on.old) tree.now kept.now limit × Prepared (B.state on.old) tree.now kept.now limit (8192 * i) 8192 }
    requires clear { tree.now.size < 8192 * (i + 1) → EndsClear (B.state on.old) tree.now kept.now }
    requires linked { (B.state on.old).tells → tree.now.dir ≡ true → depth_for tree.now.size < depth_for (8192 * (i + 1)) → (b : ℕ) → HasBlock (B.state on.old) tree.now b → Reaches (B.state on.old).now (to_block 1) b }
    requires spare { IsEnough (IsTopCurrent (B.state on.old) tree.now) tree.now.size i (B.state on.old).spare }
    ensures owned { (generation limit : ℕ) → Owned (form_of tree.now generation limit) tree.now.size i result.at (B.state on.old) (B.state on.new) (leaves_of (B.state on.old) tree.now kept.now limit) (leaves_of (B.state on.new) (with_leaf tree.now i result.top) kept.now limit) }
    ensures bytes { (B.state on.old).tells → IsPlainTree tree.now ⊎ ((tree.now.size % 8192 ≡ 0) ⊎ (8192 * (i + 1) ≤ tree.now.size)) → (limit : ℕ) → (leaves_of (B.state on.new) (with_leaf tree.now i result.top) kept.now limit).bytes ≡ resized (leaves_of (B.state on.old) tree.now kept.now limit).bytes (max tree.now.size (8192 * (i + 1))) }
    ensures top { IsTopOf (B.state on.old) (B.state on.new) tree.now result.top }
    ensures over { (limit : ℕ) → 8192 * (i + 1) ≤ limit → Over (B.state on.old) tree.now kept.now limit → Over (B.state on.new) (with_leaf tree.now i result.top) kept.now limit }
    ensures grows { (limit : ℕ) → Grows (B.state on.old) (B.state on.new) (leaves_of (B.state on.old) tree.now kept.now limit) (leaves_of (B.state on.new) (with_leaf tree.now i result.top) kept.now limit) }
    ensures changes { (generation limit : ℕ) → Changes tree.now.tag (HasBlock (B.state on.old) tree.now) (MayZero (form_of tree.now generation limit) tree.now.size i (B.state on.old) (leaves_of (B.state on.old) tree.now kept.now limit)) (B.state on.old) (B.state on.new) }
    ensures spare { ((B.state on.old).spare ≤ (B.state on.new).spare + most_to_own tree.now.size i) × (IsTopCurrent (B.state on.old) tree.now → (B.state on.old).spare + 1 ≤ (B.state on.new).spare + most_to_own tree.now.size i) }
    ensures dirties { Dirties (2 * most_to_own tree.now.size i) (λ b. b ≡ result.at) (B.state on.old) (B.state on.new) }
    ensures current { IsTopCurrent (B.state on.new) (with_leaf tree.now i result.top) }
    ensures clear { (B.state on.old).tells ⊎ (tree.now.size ≤ 8192 * (i + 1)) → EndsClear (B.state on.old) tree.now kept.now → EndsClear (B.state on.new) (with_leaf tree.now i result.top) kept.now }
    ensures room { (B.state on.new).room ≡ (B.state on.old).room }
    ensures shown { ShowsNoMore (B.state on.old).may_leave (B.state on.new).may_leave }
    ensures alike { KeepsAlike (B.state on.old) (B.state on.new) tree.now (with_leaf tree.now i result.top) }
    ensures keeps { B.keeps on.old on.new }
{
    own_any(tree, kept, on, i)
}

/// Makes a leaf current.
fn own_any<B: Blocks>(tree: &Tree, kept: &[Kept], on: &mut B, i: u32) -> Current
    requires over { (limit : ℕ) × Over (B.state on.old) tree.now kept.now limit × Prepared (B.state on.old) tree.now kept.now limit (8192 * i) 8192 }
    requires clear { tree.now.size < 8192 * (i + 1) → EndsClear (B.state on.old) tree.now kept.now }
    requires linked { (B.state on.old).tells → tree.now.dir ≡ true → depth_for tree.now.size < depth_for (8192 * (i + 1)) → (b : ℕ) → HasBlock (B.state on.old) tree.now b → Reaches (B.state on.old).now (to_block 1) b }
    requires spare { IsEnough (IsTopCurrent (B.state on.old) tree.now) tree.now.size i (B.state on.old).spare }
    ensures owns { OwnsZeroed (B.state on.old) (B.state on.new) tree.now (with_leaf tree.now i result.top) kept.now i result.top result.at }
    ensures shown { ShowsNoMore (B.state on.old).may_leave (B.state on.new).may_leave }
    ensures alike { KeepsAlike (B.state on.old) (B.state on.new) tree.now (with_leaf tree.now i result.top) }
    ensures keeps { B.keeps on.old on.new }
{
    if end_of(i) <= tree.size {
        fo_tree_lift::own_leaf(tree, kept, on, i)
    } else {
        own_past(tree, kept, on, i)
    }
}

/// Where leaf `i` ends.
fn end_of(i: u32) -> u64
    ensures { result ≡ 8192 * (i + 1) }
{
    BLOCK as u64 * (i as u64 + 1)
}

/// Makes a leaf past the end current, with zeros behind the end that there was.
fn own_past<B: Blocks>(tree: &Tree, kept: &[Kept], on: &mut B, i: u32) -> Current
    requires over { (limit : ℕ) × Over (B.state on.old) tree.now kept.now limit × Prepared (B.state on.old) tree.now kept.now limit (8192 * i) 8192 }
    requires past { tree.now.size < 8192 * (i + 1) }
    requires clear { EndsClear (B.state on.old) tree.now kept.now }
    requires linked { (B.state on.old).tells → tree.now.dir ≡ true → depth_for tree.now.size < depth_for (8192 * (i + 1)) → (b : ℕ) → HasBlock (B.state on.old) tree.now b → Reaches (B.state on.old).now (to_block 1) b }
    requires spare { IsEnough (IsTopCurrent (B.state on.old) tree.now) tree.now.size i (B.state on.old).spare }
    ensures owns { OwnsZeroed (B.state on.old) (B.state on.new) tree.now (with_leaf tree.now i result.top) kept.now i result.top result.at }
    ensures shown { ShowsNoMore (B.state on.old).may_leave (B.state on.new).may_leave }
    ensures alike { KeepsAlike (B.state on.old) (B.state on.new) tree.now (with_leaf tree.now i result.top) }
    ensures keeps { B.keeps on.old on.new }
{
    let cleared = clear_tail(tree, kept, on);
    match cleared {
        None => fo_tree_lift::own_leaf(tree, kept, on, i),
        Some(end) => {
            let here = below_top(tree, end.top);
            if least_depth(end_of(i)) == tree.depth {
                own_next(&here, kept, on, i)
            } else {
                own_raised(&here, kept, on, i)
            }
        }
    }
}

/// The tree of a source below another top.
fn below_top(tree: &Tree, top: u32) -> Tree
    ensures { result ≡ with_top tree.now top }
{
    Tree {
        dir: tree.dir,
        tag: tree.tag,
        rank: tree.rank,
        depth: tree.depth,
        size: tree.size,
        top: Pointer::Local(top),
    }
}
