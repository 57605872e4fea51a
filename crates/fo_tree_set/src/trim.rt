//! A source is trimmed, with all settled before anything is cut.
ghost use Rattle.std.specs.Prelude.{◌≡◌, ◌⊎◌, ◌+◌, ◌*◌, ◌<◌, ◌≤◌, ℕ, List, true, false, IfOk, IfErr};
ghost use Rattle.std.specs.List.{Contains};
ghost use Rattle.fo_base.specs.Cause.{Rose};
ghost use Rattle.fo_crash.specs.Steps.{AllAre};
ghost use Rattle.fo_ports.specs.Causes.{Caused};
ghost use Rattle.fo_ports.specs.Sources.{AddsDirty, DirtiesIn};
ghost use Rattle.fo_tree_look.specs.Source.{Over, WayReady, leaves_of};
ghost use Rattle.fo_tree_down.specs.Clear.{EndsClear, last_leaf};
ghost use Rattle.fo_tree_down.specs.Way.{with_top};
ghost use Rattle.fo_tree_link.specs.Change.{HangsInTree};
ghost use Rattle.fo_tree_trim.specs.Trim.{AddsEnd, IsEndCurrent};
ghost use Rattle.fo_tree_trim.specs.of_tree_own.Shown.{ShowsNoMore};
ghost use Rattle.fo_tree_shorten.specs.Shorten.{EntryAt};
ghost use Rattle.fo_tree_set.specs.Set.{Rested, TrimsBy, MayTrim};

use fo_ports::{BlockError, Blocks};
use fo_tree_look::Ways;
use fo_tree_shorten::{cut, make_ready};
use fo_tree_trim::is_clear_behind;

/// Clears what stands behind the end of a source of data, whose entry stands in slot `i` of block `at`, once all was settled; where nothing
/// stands there, nothing is done. Where the settling is refused, nothing is cut.
pub(crate) fn trim_settled<B: Blocks>(
    ways: &mut Ways,
    on: &mut B,
    at: u32,
    i: u32,
) -> Result<(), BlockError>
    requires over { Over (B.state on.old) ways.old.tree ways.old.kept.items ways.old.limit }
    requires data { ways.old.tree.dir ≡ false }
    requires entry { EntryAt (B.state on.old) ways.old.tree ways.old.generation at i }
    requires ready { 0 < ways.old.tree.size → WayReady (B.state on.old) ways.old.tree ways.old.kept.items ways.old.tree.depth (last_leaf ways.old.tree.size) }
    requires linked { (B.state on.old).tells → HangsInTree (B.state on.old) ways.old.tree at i }
    requires calm { (B.state on.old).tells → (b j : ℕ) → (B.state on.old).clearing b j → ⊥ }
    requires spare { ways.old.tree.depth ≤ (B.state on.old).spare }
    requires room { 409 * ways.old.tree.depth ≤ (B.state on.old).room }
    ensures is { (ways.new.generation ≡ ways.old.generation) × (ways.new.limit ≡ ways.old.limit) × (ways.new.kept ≡ ways.old.kept) }
    ensures over { Over (B.state on.new) ways.new.tree ways.new.kept.items ways.new.limit }
    ensures entry { EntryAt (B.state on.new) ways.new.tree ways.new.generation at i }
    ensures linked { (B.state on.old).tells → HangsInTree (B.state on.new) ways.new.tree at i }
    ensures clear { IfOk result (λ _. EndsClear (B.state on.new) ways.new.tree ways.new.kept.items) }
    ensures bytes { (B.state on.old).tells → (leaves_of (B.state on.new) ways.new.tree ways.new.kept.items ways.new.limit).bytes ≡ (leaves_of (B.state on.old) ways.old.tree ways.old.kept.items ways.old.limit).bytes }
    ensures trims { MayTrim B B.state on.old on.new ways.old.tree ways.new.tree ways.old.kept.items ways.old.generation at i }
    ensures spare { (B.state on.old).spare ≤ (B.state on.new).spare + ways.old.tree.depth }
    ensures dirties { (first : B) (blocks : List ℕ) → DirtiesIn blocks (B.state first) (B.state on.old) → Contains blocks at → AddsDirty (2 * ways.old.tree.depth) blocks at (B.state first) (B.state on.new) }
    ensures room { (B.state on.old).room ≤ (B.state on.new).room + 409 * ways.old.tree.depth }
    ensures pins { (B.state on.new).pins_left ≡ (B.state on.old).pins_left }
    ensures cause { IfErr result (Caused ⊥ (λ b. ⊥) (Rose (B.state on.old).faults (B.state on.new).faults) ⊥) }
    ensures shown { ShowsNoMore (B.state on.old).may_leave (B.state on.new).may_leave }
    ensures keeps { B.keeps on.old on.new }
{
    if is_clear(ways, on) {
        return Ok(());
    }
    cut_end(ways, on, at, i)
}

/// Whether nothing stands behind the end of a source.
fn is_clear<B: Blocks>(ways: &Ways, on: &B) -> bool
    requires over { Over (B.state on.now) ways.now.tree ways.now.kept.items ways.now.limit }
    requires ready { 0 < ways.now.tree.size → WayReady (B.state on.now) ways.now.tree ways.now.kept.items ways.now.tree.depth (last_leaf ways.now.tree.size) }
    ensures yes { result ≡ true → EndsClear (B.state on.now) ways.now.tree ways.now.kept.items }
    ensures deep { result ≡ false → 0 < ways.now.tree.depth }
{
    is_clear_behind(&ways.tree, &ways.kept, on)
}

/// Cuts what stands behind the end of a source of more than one leaf.
fn cut_end<B: Blocks>(ways: &mut Ways, on: &mut B, at: u32, i: u32) -> Result<(), BlockError>
    requires over { Over (B.state on.old) ways.old.tree ways.old.kept.items ways.old.limit }
    requires data { ways.old.tree.dir ≡ false }
    requires deep { 0 < ways.old.tree.depth }
    requires entry { EntryAt (B.state on.old) ways.old.tree ways.old.generation at i }
    requires ready { WayReady (B.state on.old) ways.old.tree ways.old.kept.items ways.old.tree.depth (last_leaf ways.old.tree.size) }
    requires linked { (B.state on.old).tells → HangsInTree (B.state on.old) ways.old.tree at i }
    requires calm { (B.state on.old).tells → (b j : ℕ) → (B.state on.old).clearing b j → ⊥ }
    requires spare { ways.old.tree.depth ≤ (B.state on.old).spare }
    requires room { 409 * ways.old.tree.depth ≤ (B.state on.old).room }
    ensures is { (ways.new.generation ≡ ways.old.generation) × (ways.new.limit ≡ ways.old.limit) × (ways.new.kept ≡ ways.old.kept) }
    ensures over { Over (B.state on.new) ways.new.tree ways.new.kept.items ways.new.limit }
    ensures entry { EntryAt (B.state on.new) ways.new.tree ways.new.generation at i }
    ensures linked { (B.state on.old).tells → HangsInTree (B.state on.new) ways.new.tree at i }
    ensures clear { IfOk result (λ _. EndsClear (B.state on.new) ways.new.tree ways.new.kept.items) }
    ensures bytes { (B.state on.old).tells → (leaves_of (B.state on.new) ways.new.tree ways.new.kept.items ways.new.limit).bytes ≡ (leaves_of (B.state on.old) ways.old.tree ways.old.kept.items ways.old.limit).bytes }
    ensures trims { TrimsBy B B.state on.old on.new ways.old.tree ways.new.tree ways.old.kept.items ways.old.generation at i }
    ensures spare { (B.state on.old).spare ≤ (B.state on.new).spare + ways.old.tree.depth }
    ensures dirties { (first : B) (blocks : List ℕ) → DirtiesIn blocks (B.state first) (B.state on.old) → Contains blocks at → AddsDirty (2 * ways.old.tree.depth) blocks at (B.state first) (B.state on.new) }
    ensures room { (B.state on.old).room ≤ (B.state on.new).room + 409 * ways.old.tree.depth }
    ensures pins { (B.state on.new).pins_left ≡ (B.state on.old).pins_left }
    ensures cause { IfErr result (Caused ⊥ (λ b. ⊥) (Rose (B.state on.old).faults (B.state on.new).faults) ⊥) }
    ensures shown { ShowsNoMore (B.state on.old).may_leave (B.state on.new).may_leave }
    ensures keeps { B.keeps on.old on.new }
{
    match rest(ways, on, at, i) {
        Ok(()) => {
            cut(ways, on, at, i);
            Ok(())
        }
        Err(why) => Err(why),
    }
}

/// Makes a source of more than one leaf ready to be cut, and settles all.
fn rest<B: Blocks>(ways: &mut Ways, on: &mut B, at: u32, i: u32) -> Result<(), BlockError>
    requires over { Over (B.state on.old) ways.old.tree ways.old.kept.items ways.old.limit }
    requires data { ways.old.tree.dir ≡ false }
    requires deep { 0 < ways.old.tree.depth }
    requires entry { EntryAt (B.state on.old) ways.old.tree ways.old.generation at i }
    requires ready { WayReady (B.state on.old) ways.old.tree ways.old.kept.items ways.old.tree.depth (last_leaf ways.old.tree.size) }
    requires linked { (B.state on.old).tells → HangsInTree (B.state on.old) ways.old.tree at i }
    requires calm { (B.state on.old).tells → (b j : ℕ) → (B.state on.old).clearing b j → ⊥ }
    requires spare { ways.old.tree.depth ≤ (B.state on.old).spare }
    ensures is { (ways.new.generation ≡ ways.old.generation) × (ways.new.limit ≡ ways.old.limit) × (ways.new.kept ≡ ways.old.kept) }
    ensures over { Over (B.state on.new) ways.new.tree ways.new.kept.items ways.new.limit }
    ensures entry { EntryAt (B.state on.new) ways.new.tree ways.new.generation at i }
    ensures ready { WayReady (B.state on.new) ways.new.tree ways.new.kept.items ways.new.tree.depth (last_leaf ways.new.tree.size) }
    ensures current { IsEndCurrent (B.state on.new) ways.new.tree }
    ensures linked { (B.state on.old).tells → HangsInTree (B.state on.new) ways.new.tree at i }
    ensures bytes { (B.state on.old).tells → (leaves_of (B.state on.new) ways.new.tree ways.new.kept.items ways.new.limit).bytes ≡ (leaves_of (B.state on.old) ways.old.tree ways.old.kept.items ways.old.limit).bytes }
    ensures settled { IfOk result (λ _. AllAre (B.state on.new).now (B.state on.new).may_leave) }
    ensures steps { (top : ℕ) × (ways.new.tree ≡ with_top ways.old.tree top) × ((own : B) × ((put : B) × Rested (B.state on.old) (B.state own) (B.state put) (B.state on.new) ways.old.tree ways.old.generation at i top)) }
    ensures spare { (B.state on.old).spare ≤ (B.state on.new).spare + ways.old.tree.depth }
    ensures dirties { (first : B) (blocks : List ℕ) → DirtiesIn blocks (B.state first) (B.state on.old) → Contains blocks at → AddsEnd (2 * ways.old.tree.depth) blocks at ways.new.tree (B.state first) (B.state on.new) }
    ensures room { (B.state on.new).room ≡ (B.state on.old).room }
    ensures pins { (B.state on.new).pins_left ≡ (B.state on.old).pins_left }
    ensures cause { IfErr result (Caused ⊥ (λ b. ⊥) (Rose (B.state on.old).faults (B.state on.new).faults) ⊥) }
    ensures shown { ShowsNoMore (B.state on.old).may_leave (B.state on.new).may_leave }
    ensures keeps { B.keeps on.old on.new }
{
    make_ready(ways, on, at, i);
    on.settle()
}
