//! What stands behind the end of a source in its last leaf is cleared.
ghost use Rattle.std.specs.Prelude.{◌≡◌, ◌≢◌, ◌⊎◌, ◌+◌, ◌-◌, ◌*◌, ◌/◌, ◌%◌, ◌<◌, ◌≤◌, ℕ, true, false, slice_index, MatchOption, None as Nothing};
ghost use Rattle.fo_image.specs.declared.types.Pointer.TheVariants.{Nil};
ghost use Rattle.fo_ports.specs.State.{none};
ghost use Rattle.fo_ports.specs.Sources.{Changes, Dirties, EndsWithin, Grows, Owned};
ghost use Rattle.fo_tree_leaf.specs.of_tree_read.Tree.{block_at};
ghost use Rattle.fo_tree_leaf.specs.of_tree_look.Source.{Over, HasBlock, IsPlainTree, WayReady, IsTopCurrent, seen, form_of, leaves_of, address_here, held_here};
ghost use Rattle.fo_tree_leaf.specs.of_tree_down.Way.{IsTopOf, with_top};
ghost use Rattle.fo_tree_leaf.specs.of_tree_down.Alike.{KeepsAlike};
ghost use Rattle.fo_tree_leaf.specs.of_tree_down.Clear.{EndsClear};
ghost use Rattle.fo_tree_leaf.specs.of_tree_own.Shown.{ShowsNoMore};
ghost use Rattle.fo_tree_clear.specs.Put.{byte_here, EndsHere, top_after, IsInnerOrEnd};
ghost use Rattle.fo_tree_clear.specs.Steps.{IsStep};

use crate::here::pointer_here;
use crate::put::put_leaf;
use fo_base::BLOCK;
use fo_image::Pointer;
use fo_ports::Blocks;
use fo_tree_leaf::{Current, Kept, Tree};

/// How many bytes a leaf has.
const LEAF: u64 = BLOCK as u64;

/// Puts zeros behind the end of a plain source that ends within a leaf, and gives the address of that leaf and of the top; None where there
/// is no such leaf, and nothing is done.
pub fn clear_tail<B: Blocks>(tree: &Tree, kept: &[Kept], on: &mut B) -> Option<Current>
    requires over { (limit : ℕ) × Over (B.state on.old) tree.now kept.now limit }
    requires ready { 0 < tree.now.size → WayReady (B.state on.old) tree.now kept.now tree.now.depth ((tree.now.size - 1) / 8192) }
    requires spare { (IsTopCurrent (B.state on.old) tree.now × (tree.now.depth ≤ (B.state on.old).spare)) ⊎ (tree.now.depth < (B.state on.old).spare) }
    ensures cleared { MatchOption result (on.new ≡ on.old) (λ c. (generation limit : ℕ) → Over (B.state on.old) tree.now kept.now limit → EndsWithin (form_of tree.now generation limit) tree.now.size (tree.now.size / 8192) × Owned (form_of tree.now generation limit) tree.now.size (tree.now.size / 8192) c.at (B.state on.old) (B.state on.new) (leaves_of (B.state on.old) tree.now kept.now limit) (leaves_of (B.state on.new) (with_top tree.now c.top) kept.now limit)) }
    ensures zeros { IsPlainTree tree.now → (k : ℕ) → tree.now.size ≤ k → byte_here (B.state on.new) (top_after tree.now result) kept.now k ≡ 0 }
    ensures bytes { (B.state on.old).tells → (limit : ℕ) → (leaves_of (B.state on.new) (top_after tree.now result) kept.now limit).bytes ≡ (leaves_of (B.state on.old) tree.now kept.now limit).bytes }
    ensures top { MatchOption result (IsTopCurrent (B.state on.old) tree.now → IsTopCurrent (B.state on.new) tree.now) (λ c. IsTopOf (B.state on.old) (B.state on.new) tree.now c.top × IsTopCurrent (B.state on.new) (with_top tree.now c.top)) }
    ensures over { (limit : ℕ) → Over (B.state on.old) tree.now kept.now limit → Over (B.state on.new) (top_after tree.now result) kept.now limit }
    ensures grows { (limit : ℕ) → Grows (B.state on.old) (B.state on.new) (leaves_of (B.state on.old) tree.now kept.now limit) (leaves_of (B.state on.new) (top_after tree.now result) kept.now limit) }
    ensures changes { Changes tree.now.tag (HasBlock (B.state on.old) tree.now) (IsInnerOrEnd (B.state on.old) tree.now) (B.state on.old) (B.state on.new) }
    ensures spare { (B.state on.old).spare ≤ (B.state on.new).spare + (tree.now.depth + 1) }
    ensures less { IsTopCurrent (B.state on.old) tree.now → (B.state on.old).spare ≤ (B.state on.new).spare + tree.now.depth }
    ensures dirties { Dirties (2 * (tree.now.depth + 1)) none (B.state on.old) (B.state on.new) }
    ensures clear { EndsClear (B.state on.old) tree.now kept.now → EndsClear (B.state on.new) (top_after tree.now result) kept.now }
    ensures step { MatchOption result (Unit {0}) (λ c. EndsHere (B.state on.old) tree.now kept.now × IsStep (B.state on.old) (B.state on.new) tree.now kept.now (tree.now.size / 8192) c.top × (address_here (B.state on.old) tree.now (tree.now.size / 8192) ≡ Nothing → held_here (B.state on.old) tree.now kept.now (tree.now.size / 8192) ≡ Nothing → ⊥)) }
    ensures room { (B.state on.new).room ≡ (B.state on.old).room }
    ensures shown { ShowsNoMore (B.state on.old).may_leave (B.state on.new).may_leave }
    ensures alike { KeepsAlike (B.state on.old) (B.state on.new) tree.now (top_after tree.now result) }
    ensures keeps { B.keeps on.old on.new }
{
    if ends_here(tree, kept, on) {
        Some(zero_tail(tree, kept, on))
    } else {
        None
    }
}

/// Whether a plain source ends within a leaf that there is.
fn ends_here<B: Blocks>(tree: &Tree, kept: &[Kept], on: &B) -> bool
    requires over { (limit : ℕ) × Over (B.state on.now) tree.now kept.now limit }
    requires ready { 0 < tree.now.size → WayReady (B.state on.now) tree.now kept.now tree.now.depth ((tree.now.size - 1) / 8192) }
    ensures yes { result ≡ true → EndsHere (B.state on.now) tree.now kept.now }
    ensures not { result ≡ false → IsPlainTree tree.now → 0 < tree.now.size % 8192 → block_at (seen (B.state on.now) kept.now) tree.now tree.now.depth (tree.now.size / 8192) ≡ Nil }
{
    if !ends_within(tree) {
        return false;
    }
    let last = pointer_here(tree, kept, on, tree.depth, tree.size / LEAF);
    !is_nil(last)
}

/// Whether a plain source ends within a leaf.
fn ends_within(tree: &Tree) -> bool
    ensures yes { result ≡ true → IsPlainTree tree.now × (0 < tree.now.size % 8192) }
    ensures not { result ≡ false → IsPlainTree tree.now → 0 < tree.now.size % 8192 → ⊥ }
{
    tree.size % LEAF != 0 && is_plain(tree)
}

/// Puts zeros behind the end.
fn zero_tail<B: Blocks>(tree: &Tree, kept: &[Kept], on: &mut B) -> Current
    requires over { (limit : ℕ) × Over (B.state on.old) tree.now kept.now limit }
    requires ends { EndsHere (B.state on.old) tree.now kept.now }
    requires ready { WayReady (B.state on.old) tree.now kept.now tree.now.depth (tree.now.size / 8192) }
    requires spare { (IsTopCurrent (B.state on.old) tree.now × (tree.now.depth ≤ (B.state on.old).spare)) ⊎ (tree.now.depth < (B.state on.old).spare) }
    ensures ends { (generation limit : ℕ) → EndsWithin (form_of tree.now generation limit) tree.now.size (tree.now.size / 8192) }
    ensures owned { (generation limit : ℕ) → Over (B.state on.old) tree.now kept.now limit → Owned (form_of tree.now generation limit) tree.now.size (tree.now.size / 8192) result.at (B.state on.old) (B.state on.new) (leaves_of (B.state on.old) tree.now kept.now limit) (leaves_of (B.state on.new) (with_top tree.now result.top) kept.now limit) }
    ensures zeros { (k : ℕ) → tree.now.size ≤ k → byte_here (B.state on.new) (with_top tree.now result.top) kept.now k ≡ 0 }
    ensures bytes { (B.state on.old).tells → (limit : ℕ) → (leaves_of (B.state on.new) (with_top tree.now result.top) kept.now limit).bytes ≡ (leaves_of (B.state on.old) tree.now kept.now limit).bytes }
    ensures top { IsTopOf (B.state on.old) (B.state on.new) tree.now result.top × IsTopCurrent (B.state on.new) (with_top tree.now result.top) }
    ensures over { (limit : ℕ) → Over (B.state on.old) tree.now kept.now limit → Over (B.state on.new) (with_top tree.now result.top) kept.now limit }
    ensures grows { (limit : ℕ) → Grows (B.state on.old) (B.state on.new) (leaves_of (B.state on.old) tree.now kept.now limit) (leaves_of (B.state on.new) (with_top tree.now result.top) kept.now limit) }
    ensures changes { Changes tree.now.tag (HasBlock (B.state on.old) tree.now) (IsInnerOrEnd (B.state on.old) tree.now) (B.state on.old) (B.state on.new) }
    ensures spare { (B.state on.old).spare ≤ (B.state on.new).spare + (tree.now.depth + 1) }
    ensures less { IsTopCurrent (B.state on.old) tree.now → (B.state on.old).spare ≤ (B.state on.new).spare + tree.now.depth }
    ensures dirties { Dirties (2 * (tree.now.depth + 1)) none (B.state on.old) (B.state on.new) }
    ensures clear { EndsClear (B.state on.old) tree.now kept.now → EndsClear (B.state on.new) (with_top tree.now result.top) kept.now }
    ensures step { IsStep (B.state on.old) (B.state on.new) tree.now kept.now (tree.now.size / 8192) result.top }
    ensures there { address_here (B.state on.old) tree.now (tree.now.size / 8192) ≡ Nothing → held_here (B.state on.old) tree.now kept.now (tree.now.size / 8192) ≡ Nothing → ⊥ }
    ensures room { (B.state on.new).room ≡ (B.state on.old).room }
    ensures shown { ShowsNoMore (B.state on.old).may_leave (B.state on.new).may_leave }
    ensures alike { KeepsAlike (B.state on.old) (B.state on.new) tree.now (with_top tree.now result.top) }
    ensures keeps { B.keeps on.old on.new }
{
    let last = tree.size / LEAF;
    let from = tree.size % LEAF;
    let zeros = zeros::<BLOCK>();
    put_leaf(tree, kept, on, last, from as u32, &zeros[from as usize..])
}

/// Zeros.
fn zeros<const N: usize>() -> [u8; N]
    ensures zero { (i : ℕ) → slice_index result i ≡ 0 }
{
    [0; N]
}

/// Whether the leaves hold neither entries nor records.
fn is_plain(tree: &Tree) -> bool
    ensures is { result ≡ true → IsPlainTree tree.now }
    ensures all { IsPlainTree tree.now → result ≡ true }
{
    !tree.dir && tree.rank % 32 != 16
}

/// Whether a pointer names no block.
fn is_nil(pointer: Pointer) -> bool
    ensures yes { result ≡ true → pointer ≡ Nil }
    ensures not { result ≡ false → pointer ≢ Nil }
{
    matches!(pointer, Pointer::Nil)
}
