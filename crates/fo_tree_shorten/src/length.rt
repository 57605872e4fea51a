//! A source loses its last bytes.
ghost use Rattle.std.specs.Prelude.{◌≡◌, ◌≢◌, ◌+◌, ◌-◌, ◌*◌, ◌%◌, ◌<◌, ◌≤◌, ℕ, List, take, false};
ghost use Rattle.std.specs.List.{Contains};
ghost use Rattle.fo_image.specs.declared.types.Score.{Score};
ghost use Rattle.fo_image.specs.declared.types.Pointer.TheVariants.{Nil, Local, Score as Held};
ghost use Rattle.fo_crash.specs.Images.{Reaches, to_block};
ghost use Rattle.fo_ports.specs.Sources.{DirtiesIn, depth_for};
ghost use Rattle.fo_tree_read.specs.Tree.{block_at};
ghost use Rattle.fo_tree_look.specs.Source.{Over, HasBlock, WayReady, leaves_of};
ghost use Rattle.fo_tree_link.specs.of_tree_down.Clear.{last_leaf};
ghost use Rattle.fo_tree_link.specs.Link.{CanLink};
ghost use Rattle.fo_tree_link.specs.Change.{HangsInTree};
ghost use Rattle.fo_tree_trim.specs.of_tree_own.Shown.{ShowsNoMore};
ghost use Rattle.fo_tree_shorten.specs.Shorten.{EntryAt, Links, shorter};

use fo_image::Pointer;
use fo_ports::Blocks;
use fo_tree_link::link;
use fo_tree_look::{Kept, Ways};
use fo_tree_read::Tree;
use fo_tree_trim::lowered;

/// Gives a source of data an end within it, or none of its bytes: its entry, in slot `i` of block `at`, is put with that length and the least
/// depth for it. The way to its new last leaf is prepared. An image has the old length or the new one. What stands behind the end stays in
/// the blocks that are left, until the source is trimmed; the tail of its last leaf is zeroed when it grows. No level that goes is under a
/// score.
pub fn shorten<B: Blocks>(ways: &mut Ways, on: &mut B, at: u32, i: u32, end: u64)
    requires over { Over (B.state on.old) ways.old.tree ways.old.kept.items ways.old.limit }
    requires data { ways.old.tree.dir ≡ false }
    requires end { end ≤ ways.old.tree.size }
    requires entry { EntryAt (B.state on.old) ways.old.tree ways.old.generation at i }
    requires ready { 0 < ways.old.tree.size → WayReady (B.state on.old) ways.old.tree ways.old.kept.items ways.old.tree.depth (last_leaf end) }
    requires linked { (B.state on.old).tells → HangsInTree (B.state on.old) ways.old.tree at i }
    requires local_down { (B.state on.old).tells → (n : ℕ) (score : Score) → n < ways.old.tree.depth - depth_for end → block_at (B.state on.old) ways.old.tree n 0 ≢ Held score }
    requires room { 409 * ways.old.tree.depth < (B.state on.old).room }
    ensures is { (ways.new.tree ≡ shorter (B.state on.old) ways.old.tree ways.old.kept.items end) × (ways.new.generation ≡ ways.old.generation) × (ways.new.limit ≡ ways.old.limit) × (ways.new.kept ≡ ways.old.kept) }
    ensures over { Over (B.state on.new) ways.new.tree ways.new.kept.items ways.new.limit }
    ensures entry { EntryAt (B.state on.new) ways.new.tree ways.new.generation at i }
    ensures ready { 0 < end → WayReady (B.state on.new) ways.new.tree ways.new.kept.items ways.new.tree.depth (last_leaf end) }
    ensures linked { (B.state on.old).tells → HangsInTree (B.state on.new) ways.new.tree at i }
    ensures bytes { (B.state on.old).tells → (leaves_of (B.state on.new) ways.new.tree ways.new.kept.items ways.new.limit).bytes ≡ take end (leaves_of (B.state on.old) ways.old.tree ways.old.kept.items ways.old.limit).bytes }
    ensures links { Links (B.state on.old) (B.state on.new) ways.new.tree ways.new.generation at i }
    ensures leaves { (B.state on.old).tells → (b : ℕ) → HasBlock (B.state on.old) ways.old.tree b → (Reaches (B.state on.new).now (to_block 1) b → ⊥) → (B.state on.new).covered b }
    ensures dirties { (first : B) (blocks : List ℕ) → DirtiesIn blocks (B.state first) (B.state on.old) → Contains blocks at → DirtiesIn blocks (B.state first) (B.state on.new) }
    ensures room { (B.state on.old).room ≤ (B.state on.new).room + (409 * ways.old.tree.depth + 1) }
    ensures shown { ways.old.tree.rank % 32 ≢ 16 → ShowsNoMore (B.state on.old).may_leave (B.state on.new).may_leave }
    ensures keeps { B.keeps on.old on.new }
{
    ways.tree = cut_off(&ways.tree, &ways.kept, on, ways.generation, at, i, end);
    link(ways, on, at, i);
}

/// The tree of a source with an end within it, or with none of its bytes.
fn cut_off<B: Blocks>(
    tree: &Tree,
    kept: &[Kept],
    on: &B,
    generation: u32,
    at: u32,
    i: u32,
    end: u64,
) -> Tree
    requires over { (limit : ℕ) × Over (B.state on.now) tree.now kept.now limit }
    requires data { tree.now.dir ≡ false }
    requires end { end ≤ tree.now.size }
    requires entry { EntryAt (B.state on.now) tree.now generation at i }
    requires ready { 0 < tree.now.size → WayReady (B.state on.now) tree.now kept.now tree.now.depth (last_leaf end) }
    requires linked { (B.state on.now).tells → HangsInTree (B.state on.now) tree.now at i }
    requires local_down { (B.state on.now).tells → (n : ℕ) (score : Score) → n < tree.now.depth - depth_for end → block_at (B.state on.now) tree.now n 0 ≢ Held score }
    ensures is { result ≡ shorter (B.state on.now) tree.now kept.now end }
    ensures over { (limit : ℕ) → Over (B.state on.now) tree.now kept.now limit → Over (B.state on.now) result kept.now limit }
    ensures can { (B.state on.now).tells → CanLink (B.state on.now) result generation at i }
    ensures ready { 0 < end → WayReady (B.state on.now) result kept.now result.depth (last_leaf end) }
    ensures bytes { (B.state on.now).tells → (limit : ℕ) → (leaves_of (B.state on.now) result kept.now limit).bytes ≡ take end (leaves_of (B.state on.now) tree.now kept.now limit).bytes }
    ensures tops { (n b : ℕ) → n < tree.now.depth - depth_for end → block_at (B.state on.now) tree.now n 0 ≡ Local b → (B.state on.now).pinned b }
    ensures top { (b : ℕ) → result.top ≡ Local b → ((B.state on.now).label b).tag ≡ tree.now.tag }
{
    let _ = (generation, at, i);
    if end == 0 {
        return emptied(tree);
    }
    lowered(tree, kept, on, end)
}

/// The tree of a source without bytes.
fn emptied(tree: &Tree) -> Tree
    ensures { result ≡ record tree.now { depth = 0; size = 0; top = Nil } }
{
    Tree {
        dir: tree.dir,
        tag: tree.tag,
        rank: tree.rank,
        depth: 0,
        size: 0,
        top: Pointer::Nil,
    }
}
