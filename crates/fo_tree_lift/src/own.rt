//! A leaf past the levels of a source is made current.
ghost use Rattle.std.specs.Prelude.{◌≡◌, ◌≢◌, ◌⊎◌, ◌+◌, ◌-◌, ◌*◌, ◌%◌, ◌<◌, ◌≤◌, ℕ, true};
ghost use Rattle.fo_ports.specs.of_crash.Images.{Reaches, to_block};
ghost use Rattle.fo_sparse.specs.Written.{resized};
ghost use Rattle.fo_ports.specs.State.{none};
ghost use Rattle.fo_image.specs.declared.types.Pointer.TheVariants.{Local};
ghost use Rattle.fo_ports.specs.Sources.{Made, Changes, Grows, Owned, Dirties, depth_for};
ghost use Rattle.fo_tree_look.specs.Source.{Over, HasBlock, IsPlainTree, Prepared, IsTopCurrent, form_of, leaves_of};
ghost use Rattle.fo_tree_grow.specs.of_tree_down.Way.{IsTopOf, with_top};
ghost use Rattle.fo_tree_grow.specs.of_tree_down.Alike.{KeepsAlike};
ghost use Rattle.fo_tree_grow.specs.of_tree_down.Clear.{EndsClear};
ghost use Rattle.fo_tree_grow.specs.Grow.{shaped, TailClear};
ghost use Rattle.fo_tree_grow.specs.of_tree_own.Shown.{ShowsNoMore};
ghost use Rattle.fo_tree_lift.specs.Lift.{InSteadOf};

use crate::levels::lift;
use fo_base::BLOCK;
use fo_image::{Pointer, least_depth};
use fo_ports::Blocks;
use fo_tree_grow::{Current, own_way};
use fo_tree_look::Kept;
use fo_tree_read::Tree;

/// Makes leaf `i` current, for which the source gets more levels and with which it ends then, and gives its address and that of the top,
/// which is put nowhere yet. Nothing stands behind the end; a source of entries is linked.
pub fn own_raised<B: Blocks>(tree: &Tree, kept: &[Kept], on: &mut B, i: u32) -> Current
    requires over { (limit : ℕ) × Over (B.state on.old) tree.now kept.now limit × Prepared (B.state on.old) tree.now kept.now limit (8192 * i) 8192 }
    requires some { 0 < tree.now.size }
    requires levels { tree.now.depth < depth_for (8192 * (i + 1)) }
    requires clear { EndsClear (B.state on.old) tree.now kept.now }
    requires tail { TailClear (B.state on.old) tree.now kept.now }
    requires linked { (B.state on.old).tells → tree.now.dir ≡ true → (b : ℕ) → HasBlock (B.state on.old) tree.now b → Reaches (B.state on.old).now (to_block 1) b }
    requires spare { (IsTopCurrent (B.state on.old) tree.now × (2 * depth_for (8192 * (i + 1)) ≤ (B.state on.old).spare + tree.now.depth)) ⊎ (2 * depth_for (8192 * (i + 1)) < (B.state on.old).spare + tree.now.depth) }
    ensures owned { (generation limit : ℕ) → Owned (form_of tree.now generation limit) tree.now.size i result.at (B.state on.old) (B.state on.new) (leaves_of (B.state on.old) tree.now kept.now limit) (leaves_of (B.state on.new) (with_top (shaped tree.now (depth_for (8192 * (i + 1))) (8192 * (i + 1))) result.top) kept.now limit) }
    ensures bytes { (B.state on.old).tells → IsPlainTree tree.now ⊎ (tree.now.size % 8192 ≡ 0) → (limit : ℕ) → (leaves_of (B.state on.new) (with_top (shaped tree.now (depth_for (8192 * (i + 1))) (8192 * (i + 1))) result.top) kept.now limit).bytes ≡ resized (leaves_of (B.state on.old) tree.now kept.now limit).bytes (8192 * (i + 1)) }
    ensures top { IsTopOf (B.state on.old) (B.state on.new) tree.now result.top }
    ensures over { (limit : ℕ) → 8192 * (i + 1) ≤ limit → Over (B.state on.old) tree.now kept.now limit → Over (B.state on.new) (with_top (shaped tree.now (depth_for (8192 * (i + 1))) (8192 * (i + 1))) result.top) kept.now limit }
    ensures grows { (limit : ℕ) → Grows (B.state on.old) (B.state on.new) (leaves_of (B.state on.old) tree.now kept.now limit) (leaves_of (B.state on.new) (with_top (shaped tree.now (depth_for (8192 * (i + 1))) (8192 * (i + 1))) result.top) kept.now limit) }
    ensures changes { Changes tree.now.tag (λ b. tree.now.top ≡ Local b) none (B.state on.old) (B.state on.new) }
    ensures instead { (b x : ℕ) → (B.state on.new).instead b x → (B.state on.old).instead b x ⊎ (Made (B.state on.old) (B.state on.new) b × InSteadOf (B.state on.old) tree.now x) }
    ensures stays { (B.state on.old).tells → (b : ℕ) → HasBlock (B.state on.old) tree.now b → ((B.state on.old).label b).epoch ≡ (B.state on.old).high → HasBlock (B.state on.new) (with_top (shaped tree.now (depth_for (8192 * (i + 1))) (8192 * (i + 1))) result.top) b }
    ensures in_tree { (B.state on.old).tells → (b : ℕ) → Reaches (B.state on.old).now (to_block 1) b → Reaches (B.state on.new).now (to_block 1) b }
    ensures covers { (b : ℕ) → ((B.state on.old).covered b → ⊥) → (B.state on.new).covered b → ⊥ }
    ensures made { Made (B.state on.old) (B.state on.new) result.top }
    ensures spare { (B.state on.old).spare + tree.now.depth ≤ (B.state on.new).spare + (2 * depth_for (8192 * (i + 1)) + 1) }
    ensures dirties { Dirties (2 * (2 * depth_for (8192 * (i + 1)) + 2 - tree.now.depth)) (λ b. b ≡ result.at) (B.state on.old) (B.state on.new) }
    ensures less { IsTopCurrent (B.state on.old) tree.now → (B.state on.old).spare + tree.now.depth ≤ (B.state on.new).spare + 2 * depth_for (8192 * (i + 1)) }
    ensures dirties_less { IsTopCurrent (B.state on.old) tree.now → Dirties (2 * (2 * depth_for (8192 * (i + 1)) + 1 - tree.now.depth)) (λ b. b ≡ result.at) (B.state on.old) (B.state on.new) }
    ensures room { (B.state on.new).room ≡ (B.state on.old).room }
    ensures current { IsTopCurrent (B.state on.new) (with_top (shaped tree.now (depth_for (8192 * (i + 1))) (8192 * (i + 1))) result.top) }
    ensures clear { EndsClear (B.state on.new) (with_top (shaped tree.now (depth_for (8192 * (i + 1))) (8192 * (i + 1))) result.top) kept.now }
    ensures shown { ShowsNoMore (B.state on.old).may_leave (B.state on.new).may_leave }
    ensures alike { KeepsAlike (B.state on.old) (B.state on.new) tree.now (with_top (shaped tree.now (depth_for (8192 * (i + 1))) (8192 * (i + 1))) result.top) }
    ensures keeps { B.keeps on.old on.new }
{
    let end = BLOCK as u64 * (i as u64 + 1);
    let depth = least_depth(end);
    let top = lift(tree, kept, on, depth - tree.depth);
    let grown = with_levels(tree, depth, end, top);
    own_way(&grown, kept, on, depth, i as u64)
}

/// The tree of a source of another depth and size, below another top.
fn with_levels(tree: &Tree, depth: u8, size: u64, top: Pointer) -> Tree
    ensures { result ≡ record (shaped tree.now depth size) { top = top } }
{
    Tree {
        dir: tree.dir,
        tag: tree.tag,
        rank: tree.rank,
        depth,
        size,
        top,
    }
}
