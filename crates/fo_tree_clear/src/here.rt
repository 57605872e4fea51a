//! What memory has on the way to a leaf.
ghost use Rattle.std.specs.Prelude.{◌≡◌, ◌+◌, ◌-◌, ◌/◌, ◌%◌, ◌<◌, ◌≤◌, ℕ, suc};
ghost use Rattle.fo_image.specs.Format.{kind_code};
ghost use Rattle.fo_tree_leaf.specs.of_tree_read.Tree.{kind_at, kind_down, below, block_at};
ghost use Rattle.fo_tree_leaf.specs.of_tree_look.Source.{Ready, WayReady, seen};

use fo_image::Pointer;
use fo_ports::Blocks;
use fo_tree_leaf::{Kept, Tree, kept_bytes, score_in};

/// How many pointers a block has.
const SLOTS: u64 = 409;

/// The pointer to block `k` of those so many steps below the top, on a way that was prepared.
pub(crate) fn pointer_here<B: Blocks>(
    tree: &Tree,
    kept: &[Kept],
    on: &B,
    down: u8,
    k: u64,
) -> Pointer
    requires down { (down ≤ tree.now.depth) × (tree.now.depth ≤ 4) }
    requires ready { WayReady (B.state on.now) tree.now kept.now down k }
    ensures { result ≡ block_at (seen (B.state on.now) kept.now) tree.now down k }
{
    if down == 0 {
        return tree.top;
    }
    let above = pointer_here(tree, kept, on, down - 1, k / SLOTS);
    pointer_in(tree, kept, on, down - 1, above, (k % SLOTS) as u32)
}

/// The pointer in slot `i` of the block that a pointer names so many steps below the top.
fn pointer_in<B: Blocks>(
    tree: &Tree,
    kept: &[Kept],
    on: &B,
    down: u8,
    above: Pointer,
    i: u32,
) -> Pointer
    requires down { (down < tree.now.depth) × (tree.now.depth ≤ 4) }
    requires ready { Ready (B.state on.now) tree.now kept.now down above }
    requires slot { i < 409 }
    ensures { result ≡ below (seen (B.state on.now) kept.now) (kind_down tree.now down) above i }
{
    match above {
        Pointer::Nil => Pointer::Nil,
        Pointer::Local(at) => on.slot(at, i).target(),
        Pointer::Score(score) => {
            let kind = kind_number(tree.dir, tree.depth - down);
            match kept_bytes(kept, &score, kind) {
                None => Pointer::Nil,
                Some(bytes) => score_in(&bytes, i as usize),
            }
        }
    }
}

/// The number by which the kind of a block of a source is known where it is held.
fn kind_number(dir: bool, level: u8) -> u8
    requires { level ≤ 4 }
    ensures { result ≡ kind_code (kind_at dir level) }
{
    if dir { 8 + level } else { level }
}
