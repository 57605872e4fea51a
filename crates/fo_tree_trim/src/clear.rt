//! Whether anything stands behind the end of a source.
ghost use Rattle.std.specs.Prelude.{◌≡◌, ◌≢◌, ◌+◌, ◌-◌, ◌/◌, ◌^◌, ◌<◌, ◌≤◌, ℕ, true, false};
ghost use Rattle.fo_image.specs.declared.types.Pointer.TheVariants.{Nil};
ghost use Rattle.fo_tree_read.specs.Tree.{Hangs, kind_down, below};
ghost use Rattle.fo_tree_look.specs.Source.{Ready, WayReady, seen};
ghost use Rattle.fo_tree_down.specs.Clear.{EndsClear, last_leaf};
ghost use Rattle.fo_tree_trim.specs.Behind.{IsClearTo};

use crate::here::{SLOTS, pointer_here, pointer_in};
use fo_base::BLOCK;
use fo_image::Pointer;
use fo_ports::Blocks;
use fo_tree_look::Kept;
use fo_tree_read::Tree;

/// How many bytes a leaf has.
pub(crate) const LEAF: u64 = BLOCK as u64;

/// Whether nothing stands behind the end of a source, as far as the blocks on the way to its last leaf say, which were prepared. An empty
/// source has no top.
pub fn is_clear_behind<B: Blocks>(tree: &Tree, kept: &[Kept], on: &B) -> bool
    requires hangs { Hangs (B.state on.now) tree.now }
    requires empty { tree.now.size ≡ 0 → tree.now.top ≡ Nil }
    requires ready { 0 < tree.now.size → WayReady (B.state on.now) tree.now kept.now tree.now.depth (last_leaf tree.now.size) }
    ensures yes { result ≡ true → EndsClear (B.state on.now) tree.now kept.now }
    ensures not { result ≡ false → EndsClear (B.state on.now) tree.now kept.now → ⊥ }
{
    if tree.size == 0 {
        return true;
    }
    is_clear_to(tree, kept, on, tree.depth, (tree.size - 1) / LEAF)
}

/// Whether nothing stands behind the way to block `k` of those so many steps below the top.
fn is_clear_to<B: Blocks>(tree: &Tree, kept: &[Kept], on: &B, down: u8, k: u64) -> bool
    requires down { (down ≤ tree.now.depth) × (tree.now.depth ≤ 4) }
    requires few { k < 409 ^ down }
    requires ready { WayReady (B.state on.now) tree.now kept.now down k }
    ensures yes { result ≡ true → IsClearTo (B.state on.now) tree.now kept.now down k }
    ensures not { result ≡ false → IsClearTo (B.state on.now) tree.now kept.now down k → ⊥ }
{
    if down == 0 {
        return true;
    }
    let above = pointer_here(tree, kept, on, down - 1, k / SLOTS);
    let rest = is_clear_to(tree, kept, on, down - 1, k / SLOTS);
    let here = is_clear_in(tree, kept, on, down - 1, above, (k % SLOTS) as u32);
    rest && here
}

/// Whether no slot behind slot `i` leads anywhere, of the block that a pointer names so many steps below the top.
fn is_clear_in<B: Blocks>(
    tree: &Tree,
    kept: &[Kept],
    on: &B,
    down: u8,
    above: Pointer,
    i: u32,
) -> bool
    requires down { (down < tree.now.depth) × (tree.now.depth ≤ 4) }
    requires ready { Ready (B.state on.now) tree.now kept.now down above }
    requires slot { i < 409 }
    ensures yes { result ≡ true → (j : ℕ) → i < j → j < 409 → below (seen (B.state on.now) kept.now) (kind_down tree.now down) above j ≡ Nil }
    ensures not { result ≡ false → (j : ℕ) × (i < j) × (j < 409) × (below (seen (B.state on.now) kept.now) (kind_down tree.now down) above j ≢ Nil) }
{
    for j in i + 1..409 {
        if !is_nil(pointer_in(tree, kept, on, down, above, j)) {
            return false;
        }
    }
    true
}

/// Whether a pointer names no block.
pub(crate) fn is_nil(pointer: Pointer) -> bool
    ensures yes { result ≡ true → pointer ≡ Nil }
    ensures not { result ≡ false → pointer ≢ Nil }
{
    matches!(pointer, Pointer::Nil)
}
