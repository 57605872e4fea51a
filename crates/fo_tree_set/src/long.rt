//! A source gets a longer length.
ghost use Rattle.std.specs.Prelude.{◌≡◌, ◌≢◌, ◌⊎◌, ◌+◌, ◌*◌, ◌%◌, ◌<◌, ◌≤◌, ℕ, List, false, IfOk, IfErr};
ghost use Rattle.std.specs.List.{Contains};
ghost use Rattle.fo_base.specs.Cause.{Rose};
ghost use Rattle.fo_sparse.specs.Written.{resized};
ghost use Rattle.fo_ports.specs.Causes.{Caused};
ghost use Rattle.fo_ports.specs.State.{none};
ghost use Rattle.fo_ports.specs.Sources.{AddsDirty, Dirties, DirtiesIn, depth_for};
ghost use Rattle.fo_tree_look.specs.Source.{Over, WayReady, leaves_of};
ghost use Rattle.fo_tree_down.specs.Clear.{EndsClear, last_leaf};
ghost use Rattle.fo_tree_link.specs.Change.{HangsInTree};
ghost use Rattle.fo_tree_trim.specs.of_tree_own.Shown.{ShowsNoMore};
ghost use Rattle.fo_tree_append.specs.Append.{ended};
ghost use Rattle.fo_tree_append.specs.Grown.{GrownTo};
ghost use Rattle.fo_tree_shorten.specs.Shorten.{EntryAt};
ghost use Rattle.fo_tree_set.specs.Set.{GrowsBy, LengthensBy, SameForm};

use crate::grow::grow_to;
use crate::trim::trim_settled;
use fo_ports::{BlockError, Blocks};
use fo_tree_link::link;
use fo_tree_look::Ways;

/// Trims a source of data that holds no records, and gives it an end further on then. Where the first is refused, it has the end that it had.
pub(crate) fn set_longer<B: Blocks>(
    ways: &mut Ways,
    on: &mut B,
    at: u32,
    i: u32,
    len: u64,
) -> Result<(), BlockError>
    requires over { Over (B.state on.old) ways.old.tree ways.old.kept.items ways.old.limit }
    requires data { (ways.old.tree.dir ≡ false) × (ways.old.tree.rank % 32 ≢ 16) }
    requires more { (ways.old.tree.size < len) × (len ≤ ways.old.limit) }
    requires entry { EntryAt (B.state on.old) ways.old.tree ways.old.generation at i }
    requires ready { 0 < ways.old.tree.size → WayReady (B.state on.old) ways.old.tree ways.old.kept.items ways.old.tree.depth (last_leaf ways.old.tree.size) }
    requires linked { (B.state on.old).tells → HangsInTree (B.state on.old) ways.old.tree at i }
    requires calm { (B.state on.old).tells → (b j : ℕ) → (B.state on.old).clearing b j → ⊥ }
    requires spare { ways.old.tree.depth + depth_for len < (B.state on.old).spare }
    requires room { 409 * ways.old.tree.depth < (B.state on.old).room }
    ensures is { (ways.new.generation ≡ ways.old.generation) × (ways.new.limit ≡ ways.old.limit) × (ways.new.kept ≡ ways.old.kept) }
    ensures form { SameForm ways.old.tree ways.new.tree }
    ensures size { IfOk result (λ _. ways.new.tree.size ≡ len) }
    ensures left { IfErr result (λ _. ways.new.tree.size ≡ ways.old.tree.size) }
    ensures over { Over (B.state on.new) ways.new.tree ways.new.kept.items ways.new.limit }
    ensures entry { EntryAt (B.state on.new) ways.new.tree ways.new.generation at i }
    ensures linked { (B.state on.old).tells → HangsInTree (B.state on.new) ways.new.tree at i }
    ensures clear { IfOk result (λ _. EndsClear (B.state on.new) ways.new.tree ways.new.kept.items) }
    ensures bytes { (B.state on.old).tells → (leaves_of (B.state on.new) ways.new.tree ways.new.kept.items ways.new.limit).bytes ≡ resized (leaves_of (B.state on.old) ways.old.tree ways.old.kept.items ways.old.limit).bytes ways.new.tree.size }
    ensures steps { LengthensBy B B.state on.old on.new ways.old.tree ways.new.tree ways.old.kept.items ways.old.generation at i len }
    ensures spare { (B.state on.old).spare ≤ (B.state on.new).spare + (ways.old.tree.depth + depth_for len + 1) }
    ensures dirties { (first : B) (blocks : List ℕ) → DirtiesIn blocks (B.state first) (B.state on.old) → Contains blocks at → AddsDirty (2 * (ways.old.tree.depth + depth_for len + 1)) blocks at (B.state first) (B.state on.new) }
    ensures room { (B.state on.old).room ≤ (B.state on.new).room + (409 * ways.old.tree.depth + 1) }
    ensures pins { (B.state on.new).pins_left ≡ (B.state on.old).pins_left }
    ensures cause { IfErr result (Caused ⊥ (λ b. ⊥) (Rose (B.state on.old).faults (B.state on.new).faults) ⊥) }
    ensures shown { ShowsNoMore (B.state on.old).may_leave (B.state on.new).may_leave }
    ensures keeps { B.keeps on.old on.new }
{
    match trim_settled(ways, on, at, i) {
        Ok(()) => {
            lengthen(ways, on, at, i, len);
            Ok(())
        }
        Err(why) => Err(why),
    }
}

/// Gives a source of data that is trimmed an end further on, with zeros behind the one that it had, and links it.
fn lengthen<B: Blocks>(ways: &mut Ways, on: &mut B, at: u32, i: u32, len: u64)
    requires over { Over (B.state on.old) ways.old.tree ways.old.kept.items ways.old.limit }
    requires data { (ways.old.tree.dir ≡ false) × (ways.old.tree.rank % 32 ≢ 16) }
    requires more { (ways.old.tree.size < len) × (len ≤ ways.old.limit) }
    requires entry { EntryAt (B.state on.old) ways.old.tree ways.old.generation at i }
    requires clear { EndsClear (B.state on.old) ways.old.tree ways.old.kept.items }
    requires linked { (B.state on.old).tells → HangsInTree (B.state on.old) ways.old.tree at i }
    requires spare { depth_for len < (B.state on.old).spare }
    requires room { 0 < (B.state on.old).room }
    ensures is { (ways.new.generation ≡ ways.old.generation) × (ways.new.limit ≡ ways.old.limit) × (ways.new.kept ≡ ways.old.kept) }
    ensures tree { ways.new.tree ≡ ended ways.old.tree len ways.new.tree.top }
    ensures over { Over (B.state on.new) ways.new.tree ways.new.kept.items ways.new.limit }
    ensures entry { EntryAt (B.state on.new) ways.new.tree ways.new.generation at i }
    ensures linked { (B.state on.old).tells → HangsInTree (B.state on.new) ways.new.tree at i }
    ensures clear { EndsClear (B.state on.new) ways.new.tree ways.new.kept.items }
    ensures bytes { (B.state on.old).tells → (leaves_of (B.state on.new) ways.new.tree ways.new.kept.items ways.new.limit).bytes ≡ resized (leaves_of (B.state on.old) ways.old.tree ways.old.kept.items ways.old.limit).bytes len }
    ensures grows { GrowsBy B B.state on.old on.new ways.old.tree ways.new.tree ways.old.kept.items ways.old.generation at i len }
    ensures spare { (B.state on.old).spare ≤ (B.state on.new).spare + (depth_for len + 1) }
    ensures dirties { (first : B) (blocks : List ℕ) → DirtiesIn blocks (B.state first) (B.state on.old) → Contains blocks at → AddsDirty (2 * (depth_for len + 1)) blocks at (B.state first) (B.state on.new) }
    ensures room { (B.state on.old).room ≤ (B.state on.new).room + 1 }
    ensures pins { (B.state on.new).pins_left ≡ (B.state on.old).pins_left }
    ensures shown { ShowsNoMore (B.state on.old).may_leave (B.state on.new).may_leave }
    ensures keeps { B.keeps on.old on.new }
{
    grow_ways(ways, on, len);
    link(ways, on, at, i);
}

/// Gives a source that is trimmed an end further on, with zeros behind the one that it had. Its entry isn't put.
fn grow_ways<B: Blocks>(ways: &mut Ways, on: &mut B, len: u64)
    requires over { Over (B.state on.old) ways.old.tree ways.old.kept.items ways.old.limit }
    requires data { (ways.old.tree.dir ≡ false) × (ways.old.tree.rank % 32 ≢ 16) }
    requires more { (ways.old.tree.size < len) × (len ≤ ways.old.limit) }
    requires clear { EndsClear (B.state on.old) ways.old.tree ways.old.kept.items }
    requires spare { depth_for len < (B.state on.old).spare }
    ensures is { (ways.new.generation ≡ ways.old.generation) × (ways.new.limit ≡ ways.old.limit) × (ways.new.kept ≡ ways.old.kept) }
    ensures tree { ways.new.tree ≡ ended ways.old.tree len ways.new.tree.top }
    ensures grown { GrownTo (B.state on.old) (B.state on.new) ways.old.tree ways.new.tree ways.old.kept.items }
    ensures over { Over (B.state on.new) ways.new.tree ways.new.kept.items ways.new.limit }
    ensures clear { EndsClear (B.state on.new) ways.new.tree ways.new.kept.items }
    ensures bytes { (B.state on.old).tells → (leaves_of (B.state on.new) ways.new.tree ways.new.kept.items ways.new.limit).bytes ≡ resized (leaves_of (B.state on.old) ways.old.tree ways.old.kept.items ways.old.limit).bytes len }
    ensures dirties { Dirties (2 * (depth_for len + 1)) none (B.state on.old) (B.state on.new) }
    ensures shown { ShowsNoMore (B.state on.old).may_leave (B.state on.new).may_leave }
    ensures keeps { B.keeps on.old on.new }
{
    let grown = grow_to(&ways.tree, &ways.kept, on, len);
    ways.tree = grown;
}
