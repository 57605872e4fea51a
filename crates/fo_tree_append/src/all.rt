//! A piece is put leaf by leaf.
ghost use Rattle.std.specs.Prelude.{◌≡◌, ◌≢◌, ◌⊎◌, ◌+◌, ◌-◌, ◌*◌, ◌/◌, ◌<◌, ◌≤◌, ℕ, length};
ghost use Rattle.fo_ports.specs.State.{none};
ghost use Rattle.fo_ports.specs.Sources.{Dirties};
ghost use Rattle.fo_tree_read.specs.Reading.{passed};
ghost use Rattle.fo_tree_look.specs.Source.{Over, HasBlock, IsPlainTree, Prepared};
ghost use Rattle.fo_tree_clear.specs.of_tree_down.Way.{CurrentBut};
ghost use Rattle.fo_tree_clear.specs.of_tree_own.Shown.{ShowsNoMore};
ghost use Rattle.fo_tree_clear.specs.Steps.{Steps};
ghost use Rattle.fo_tree_write.specs.Write.{at_top, Wrote};
ghost use Rattle.fo_tree_append.specs.Append.{OnLeaves, SpendsBut};

use fo_base::BLOCK;
use fo_image::Pointer;
use fo_ports::Blocks;
use fo_tree_clear::put_leaf;
use fo_tree_look::Kept;
use fo_tree_read::Tree;

/// How many bytes a leaf has.
const LEAF: u64 = BLOCK as u64;

/// Puts a piece in the place of the bytes from the offset on, all of which the source has, and gives the pointer to its top.
pub(crate) fn put_all<B: Blocks>(
    tree: &Tree,
    kept: &[Kept],
    on: &mut B,
    offset: u64,
    piece: &[u8],
) -> Pointer
    requires over { (limit : ℕ) × Over (B.state on.old) tree.now kept.now limit × Prepared (B.state on.old) tree.now kept.now limit offset (length piece.now) }
    requires plain { IsPlainTree tree.now }
    requires within { offset + length piece.now ≤ tree.now.size }
    requires spare { (c : ℕ) × CurrentBut (B.state on.old) tree.now c tree.now.depth (offset / 8192) × (c + passed tree.now.depth ((offset + length piece.now - 1) / 8192) ≤ (B.state on.old).spare + passed tree.now.depth (offset / 8192)) }
    ensures wrote { Wrote (B.state on.old) (B.state on.new) tree.now result kept.now offset (length piece.now) piece.now }
    ensures steps { Steps tree.now.tag (λ b. OnLeaves (B.state on.old) tree.now (offset / 8192) ((offset + length piece.now - 1) / 8192) b) (λ b. OnLeaves (B.state on.old) tree.now (offset / 8192) ((offset + length piece.now - 1) / 8192) b) (B.state on.old) (B.state on.new) }
    ensures stays { (B.state on.old).tells → (b : ℕ) → HasBlock (B.state on.old) tree.now b → ((B.state on.old).label b).epoch ≡ (B.state on.old).high → HasBlock (B.state on.new) (at_top tree.now result) b }
    ensures spends { (c : ℕ) → CurrentBut (B.state on.old) tree.now c tree.now.depth (offset / 8192) → SpendsBut c (B.state on.new) (at_top tree.now result) (B.state on.old).spare offset (length piece.now) }
    ensures dirties { Dirties (2 * (tree.now.depth + 1 + (passed tree.now.depth ((offset + length piece.now - 1) / 8192) - passed tree.now.depth (offset / 8192)))) none (B.state on.old) (B.state on.new) }
    ensures shown { ShowsNoMore (B.state on.old).may_leave (B.state on.new).may_leave }
    ensures keeps { B.keeps on.old on.new }
{
    let mut top = tree.top;
    let mut done = 0;
    while done < piece.len() {
        let place = offset + done as u64;
        let count = ((LEAF - place % LEAF) as usize).min(piece.len() - done);
        let here = Tree {
            dir: tree.dir,
            tag: tree.tag,
            rank: tree.rank,
            depth: tree.depth,
            size: tree.size,
            top,
        };
        let part = &piece[done..done + count];
        let current = put_leaf(&here, kept, on, place / LEAF, (place % LEAF) as u32, part);
        top = Pointer::Local(current.top);
        done += count;
    }
    top
}
