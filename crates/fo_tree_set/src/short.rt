//! A source gets a shorter length.
ghost use Rattle.std.specs.Prelude.{◌≡◌, ◌≢◌, ◌⊎◌, ◌+◌, ◌-◌, ◌*◌, ◌%◌, ◌<◌, ◌≤◌, ℕ, List, take, false, IfOk, IfErr};
ghost use Rattle.std.specs.List.{Contains};
ghost use Rattle.fo_base.specs.Cause.{Rose};
ghost use Rattle.fo_image.specs.declared.types.Score.{Score};
ghost use Rattle.fo_image.specs.declared.types.Pointer.TheVariants.{Score as Held};
ghost use Rattle.fo_ports.specs.Causes.{Caused};
ghost use Rattle.fo_ports.specs.Sources.{AddsDirty, DirtiesIn, depth_for};
ghost use Rattle.fo_tree_read.specs.Tree.{block_at};
ghost use Rattle.fo_tree_look.specs.Source.{Over, WayReady, leaves_of};
ghost use Rattle.fo_tree_down.specs.Clear.{EndsClear, last_leaf};
ghost use Rattle.fo_tree_link.specs.Change.{HangsInTree};
ghost use Rattle.fo_tree_trim.specs.of_tree_own.Shown.{ShowsNoMore};
ghost use Rattle.fo_tree_shorten.specs.Shorten.{EntryAt};
ghost use Rattle.fo_tree_set.specs.Set.{ShortensBy, SameForm};

use crate::trim::trim_settled;
use fo_ports::{BlockError, Blocks};
use fo_tree_look::Ways;
use fo_tree_shorten::shorten;

/// Shortens a source of data by a put of its entry, and trims it then. Where that is refused, it is shorter all the same.
pub(crate) fn set_shorter<B: Blocks>(
    ways: &mut Ways,
    on: &mut B,
    at: u32,
    i: u32,
    len: u64,
) -> Result<(), BlockError>
    requires over { Over (B.state on.old) ways.old.tree ways.old.kept.items ways.old.limit }
    requires data { ways.old.tree.dir ≡ false }
    requires less { len < ways.old.tree.size }
    requires entry { EntryAt (B.state on.old) ways.old.tree ways.old.generation at i }
    requires ready { WayReady (B.state on.old) ways.old.tree ways.old.kept.items ways.old.tree.depth (last_leaf len) }
    requires linked { (B.state on.old).tells → HangsInTree (B.state on.old) ways.old.tree at i }
    requires local_down { (B.state on.old).tells → (n : ℕ) (score : Score) → n < ways.old.tree.depth - depth_for len → block_at (B.state on.old) ways.old.tree n 0 ≢ Held score }
    requires calm { (B.state on.old).tells → (b j : ℕ) → (B.state on.old).clearing b j → ⊥ }
    requires spare { depth_for len ≤ (B.state on.old).spare }
    requires room { 409 * (ways.old.tree.depth + depth_for len) < (B.state on.old).room }
    ensures is { (ways.new.generation ≡ ways.old.generation) × (ways.new.limit ≡ ways.old.limit) × (ways.new.kept ≡ ways.old.kept) }
    ensures form { SameForm ways.old.tree ways.new.tree }
    ensures size { ways.new.tree.size ≡ len }
    ensures over { Over (B.state on.new) ways.new.tree ways.new.kept.items ways.new.limit }
    ensures entry { EntryAt (B.state on.new) ways.new.tree ways.new.generation at i }
    ensures linked { (B.state on.old).tells → HangsInTree (B.state on.new) ways.new.tree at i }
    ensures clear { IfOk result (λ _. EndsClear (B.state on.new) ways.new.tree ways.new.kept.items) }
    ensures bytes { (B.state on.old).tells → (leaves_of (B.state on.new) ways.new.tree ways.new.kept.items ways.new.limit).bytes ≡ take len (leaves_of (B.state on.old) ways.old.tree ways.old.kept.items ways.old.limit).bytes }
    ensures steps { ShortensBy B B.state on.old on.new ways.old.tree ways.new.tree ways.old.kept.items ways.old.generation at i len }
    ensures spare { (B.state on.old).spare ≤ (B.state on.new).spare + depth_for len }
    ensures dirties { (first : B) (blocks : List ℕ) → DirtiesIn blocks (B.state first) (B.state on.old) → Contains blocks at → AddsDirty (2 * depth_for len) blocks at (B.state first) (B.state on.new) }
    ensures room { (B.state on.old).room ≤ (B.state on.new).room + (409 * (ways.old.tree.depth + depth_for len) + 1) }
    ensures pins { (B.state on.new).pins_left ≡ (B.state on.old).pins_left }
    ensures cause { IfErr result (Caused ⊥ (λ b. ⊥) (Rose (B.state on.old).faults (B.state on.new).faults) ⊥) }
    ensures shown { ways.old.tree.rank % 32 ≢ 16 → ShowsNoMore (B.state on.old).may_leave (B.state on.new).may_leave }
    ensures keeps { B.keeps on.old on.new }
{
    shorten(ways, on, at, i, len);
    trim_settled(ways, on, at, i)
}
