//! A source is trimmed.
ghost use Rattle.std.specs.Prelude.{◌≡◌, ◌≢◌, ◌⊎◌, ◌+◌, ◌-◌, ◌*◌, ◌/◌, ◌<◌, ◌≤◌, ℕ, List, true, false};
ghost use Rattle.std.specs.List.{Contains};
ghost use Rattle.fo_crash.specs.Images.{Image, Reaches, to_block};
ghost use Rattle.fo_crash.specs.Steps.{AllAre};
ghost use Rattle.fo_ports.specs.Sources.{AddsDirty, Changes, Dirties, DirtiesIn, Made};
ghost use Rattle.fo_tree_read.specs.Tree.{kind_at};
ghost use Rattle.fo_tree_look.specs.Source.{Over, HasBlock, WayReady, IsTopCurrent, leaves_of};
ghost use Rattle.fo_tree_link.specs.of_tree_down.Clear.{EndsClear, last_leaf};
ghost use Rattle.fo_tree_link.specs.of_tree_down.Way.{IsTopOf, StaysBeside, with_top};
ghost use Rattle.fo_tree_link.specs.Change.{HangsInTree};
ghost use Rattle.fo_tree_trim.specs.Behind.{IsPast};
ghost use Rattle.fo_tree_trim.specs.Cut.{CutSlot, Cuts, MayCut};
ghost use Rattle.fo_tree_trim.specs.Trim.{AddsEnd, IsEndCurrent, OnEnd, Shows};
ghost use Rattle.fo_tree_trim.specs.of_tree_own.Shown.{ShowsNoMore};
ghost use Rattle.fo_tree_shorten.specs.Shorten.{EntryAt, Readies, Trims};

use fo_image::Pointer;
use fo_ports::Blocks;
use fo_tree_link::link;
use fo_tree_look::Ways;
use fo_tree_trim::{cut_behind, is_clear_behind, own_end};

/// Clears what stands behind the end of a source of data, whose entry stands in slot `i` of block `at`: it is made ready for that, and cut.
/// Where nothing stands there, nothing is done. An image may have slots cleared and an entry of before: so one that was put with a shorter
/// length is settled first, or between the two halves.
pub fn trim<B: Blocks>(ways: &mut Ways, on: &mut B, at: u32, i: u32)
    requires over { Over (B.state on.old) ways.old.tree ways.old.kept.items ways.old.limit }
    requires data { ways.old.tree.dir ≡ false }
    requires entry { EntryAt (B.state on.old) ways.old.tree ways.old.generation at i }
    requires ready { 0 < ways.old.tree.size → WayReady (B.state on.old) ways.old.tree ways.old.kept.items ways.old.tree.depth (last_leaf ways.old.tree.size) }
    requires linked { (B.state on.old).tells → HangsInTree (B.state on.old) ways.old.tree at i }
    requires spare { (IsTopCurrent (B.state on.old) ways.old.tree × (ways.old.tree.depth ≤ (B.state on.old).spare + 1)) ⊎ (ways.old.tree.depth ≤ (B.state on.old).spare) }
    requires room { 409 * ways.old.tree.depth ≤ (B.state on.old).room }
    ensures is { (ways.new.generation ≡ ways.old.generation) × (ways.new.limit ≡ ways.old.limit) × (ways.new.kept ≡ ways.old.kept) }
    ensures over { Over (B.state on.new) ways.new.tree ways.new.kept.items ways.new.limit }
    ensures entry { EntryAt (B.state on.new) ways.new.tree ways.new.generation at i }
    ensures linked { (B.state on.old).tells → HangsInTree (B.state on.new) ways.new.tree at i }
    ensures clear { EndsClear (B.state on.new) ways.new.tree ways.new.kept.items }
    ensures bytes { (B.state on.old).tells → (leaves_of (B.state on.new) ways.new.tree ways.new.kept.items ways.new.limit).bytes ≡ (leaves_of (B.state on.old) ways.old.tree ways.old.kept.items ways.old.limit).bytes }
    ensures steps { ((on.new ≡ on.old) × (ways.new.tree ≡ ways.old.tree)) ⊎ ((top : ℕ) × (ways.new.tree ≡ with_top ways.old.tree top) × ((own : B) × ((put : B) × Trims (B.state on.old) (B.state own) (B.state put) (B.state on.new) ways.old.tree ways.old.generation at i top))) }
    ensures spare { (B.state on.old).spare ≤ (B.state on.new).spare + ways.old.tree.depth }
    ensures less { IsTopCurrent (B.state on.old) ways.old.tree → (B.state on.old).spare ≤ (B.state on.new).spare + (ways.old.tree.depth - 1) }
    ensures dirties { (first : B) (blocks : List ℕ) → DirtiesIn blocks (B.state first) (B.state on.old) → Contains blocks at → AddsDirty (2 * ways.old.tree.depth) blocks at (B.state first) (B.state on.new) }
    ensures room { (B.state on.old).room ≤ (B.state on.new).room + 409 * ways.old.tree.depth }
    ensures shown { ShowsNoMore (B.state on.old).may_leave (B.state on.new).may_leave }
    ensures keeps { B.keeps on.old on.new }
{
    if is_clear(ways, on) {
        return;
    }
    make_ready(ways, on, at, i);
    cut(ways, on, at, i);
}

/// Makes the blocks above the last leaf of a source of data current, and links the source, so that what stands behind its end can be cut. It
/// has more leaves than one.
pub fn make_ready<B: Blocks>(ways: &mut Ways, on: &mut B, at: u32, i: u32)
    requires over { Over (B.state on.old) ways.old.tree ways.old.kept.items ways.old.limit }
    requires data { ways.old.tree.dir ≡ false }
    requires deep { 0 < ways.old.tree.depth }
    requires entry { EntryAt (B.state on.old) ways.old.tree ways.old.generation at i }
    requires ready { WayReady (B.state on.old) ways.old.tree ways.old.kept.items ways.old.tree.depth (last_leaf ways.old.tree.size) }
    requires linked { (B.state on.old).tells → HangsInTree (B.state on.old) ways.old.tree at i }
    requires spare { (IsTopCurrent (B.state on.old) ways.old.tree × (ways.old.tree.depth ≤ (B.state on.old).spare + 1)) ⊎ (ways.old.tree.depth ≤ (B.state on.old).spare) }
    ensures is { (ways.new.generation ≡ ways.old.generation) × (ways.new.limit ≡ ways.old.limit) × (ways.new.kept ≡ ways.old.kept) }
    ensures over { Over (B.state on.new) ways.new.tree ways.new.kept.items ways.new.limit }
    ensures entry { EntryAt (B.state on.new) ways.new.tree ways.new.generation at i }
    ensures ready { WayReady (B.state on.new) ways.new.tree ways.new.kept.items ways.new.tree.depth (last_leaf ways.new.tree.size) }
    ensures current { IsEndCurrent (B.state on.new) ways.new.tree }
    ensures linked { (B.state on.old).tells → HangsInTree (B.state on.new) ways.new.tree at i }
    ensures bytes { (B.state on.old).tells → (leaves_of (B.state on.new) ways.new.tree ways.new.kept.items ways.new.limit).bytes ≡ (leaves_of (B.state on.old) ways.old.tree ways.old.kept.items ways.old.limit).bytes }
    ensures steps { (top : ℕ) × (ways.new.tree ≡ with_top ways.old.tree top) × ((own : B) × Readies (B.state on.old) (B.state own) (B.state on.new) ways.old.tree ways.old.generation at i top) }
    ensures spare { (B.state on.old).spare ≤ (B.state on.new).spare + ways.old.tree.depth }
    ensures less { IsTopCurrent (B.state on.old) ways.old.tree → (B.state on.old).spare ≤ (B.state on.new).spare + (ways.old.tree.depth - 1) }
    ensures dirties { (first : B) (blocks : List ℕ) → DirtiesIn blocks (B.state first) (B.state on.old) → Contains blocks at → AddsEnd (2 * ways.old.tree.depth) blocks at ways.new.tree (B.state first) (B.state on.new) }
    ensures room { (B.state on.new).room ≡ (B.state on.old).room }
    ensures shown { ShowsNoMore (B.state on.old).may_leave (B.state on.new).may_leave }
    ensures keeps { B.keeps on.old on.new }
{
    own_ways(ways, on);
    link(ways, on, at, i);
}

/// Cuts what stands behind the end of a source of data that was made ready for it. Where all was settled before, each image has the leaves
/// that memory has.
pub fn cut<B: Blocks>(ways: &Ways, on: &mut B, at: u32, i: u32)
    requires over { Over (B.state on.old) ways.now.tree ways.now.kept.items ways.now.limit }
    requires data { ways.now.tree.dir ≡ false }
    requires deep { 0 < ways.now.tree.depth }
    requires entry { EntryAt (B.state on.old) ways.now.tree ways.now.generation at i }
    requires ready { WayReady (B.state on.old) ways.now.tree ways.now.kept.items ways.now.tree.depth (last_leaf ways.now.tree.size) }
    requires current { IsEndCurrent (B.state on.old) ways.now.tree }
    requires linked { (B.state on.old).tells → HangsInTree (B.state on.old) ways.now.tree at i }
    requires room { 409 * ways.now.tree.depth ≤ (B.state on.old).room }
    ensures over { Over (B.state on.new) ways.now.tree ways.now.kept.items ways.now.limit }
    ensures entry { EntryAt (B.state on.new) ways.now.tree ways.now.generation at i }
    ensures linked { (B.state on.old).tells → HangsInTree (B.state on.new) ways.now.tree at i }
    ensures clear { EndsClear (B.state on.new) ways.now.tree ways.now.kept.items }
    ensures bytes { (B.state on.old).tells → (leaves_of (B.state on.new) ways.now.tree ways.now.kept.items ways.now.limit).bytes ≡ (leaves_of (B.state on.old) ways.now.tree ways.now.kept.items ways.now.limit).bytes }
    ensures gone { (B.state on.old).tells → (b : ℕ) → IsPast (B.state on.old) ways.now.tree (last_leaf ways.now.tree.size) b → (Reaches (B.state on.new).now (to_block 1) b → ⊥) × (B.state on.new).covered b }
    ensures shows { (B.state on.old).tells → AllAre (B.state on.old).now (B.state on.old).may_leave → (image : Image) → (B.state on.new).may_leave image → Shows (B.state on.old) image ways.now.tree (last_leaf ways.now.tree.size) }
    ensures cuts { Cuts (CutSlot (B.state on.old) ways.now.tree (last_leaf ways.now.tree.size) (409 * ways.now.tree.depth)) (B.state on.old) (B.state on.new) }
    ensures dirties { (first : B) (blocks : List ℕ) → DirtiesIn blocks (B.state first) (B.state on.old) → ((b : ℕ) → OnEnd (B.state on.old) ways.now.tree b → Contains blocks b) → DirtiesIn blocks (B.state first) (B.state on.new) }
    ensures room { (B.state on.old).room ≤ (B.state on.new).room + 409 * ways.now.tree.depth }
    ensures shown { ShowsNoMore (B.state on.old).may_leave (B.state on.new).may_leave }
    ensures keeps { B.keeps on.old on.new }
{
    let _ = (at, i);
    cut_ways(ways, on);
}

/// Whether nothing stands behind the end of a source.
fn is_clear<B: Blocks>(ways: &Ways, on: &B) -> bool
    requires over { Over (B.state on.now) ways.now.tree ways.now.kept.items ways.now.limit }
    requires ready { 0 < ways.now.tree.size → WayReady (B.state on.now) ways.now.tree ways.now.kept.items ways.now.tree.depth (last_leaf ways.now.tree.size) }
    ensures yes { result ≡ true → EndsClear (B.state on.now) ways.now.tree ways.now.kept.items }
    ensures deep { result ≡ false → 0 < ways.now.tree.depth }
{
    is_clear_behind(&ways.tree, &ways.kept, on)
}

/// Makes the blocks above the last leaf of a source current.
fn own_ways<B: Blocks>(ways: &mut Ways, on: &mut B)
    requires over { Over (B.state on.old) ways.old.tree ways.old.kept.items ways.old.limit }
    requires deep { 0 < ways.old.tree.depth }
    requires ready { WayReady (B.state on.old) ways.old.tree ways.old.kept.items ways.old.tree.depth (last_leaf ways.old.tree.size) }
    requires spare { (IsTopCurrent (B.state on.old) ways.old.tree × (ways.old.tree.depth ≤ (B.state on.old).spare + 1)) ⊎ (ways.old.tree.depth ≤ (B.state on.old).spare) }
    ensures is { (ways.new.generation ≡ ways.old.generation) × (ways.new.limit ≡ ways.old.limit) × (ways.new.kept ≡ ways.old.kept) }
    ensures top { (top : ℕ) × (ways.new.tree ≡ with_top ways.old.tree top) × IsTopOf (B.state on.old) (B.state on.new) ways.old.tree top }
    ensures current { IsEndCurrent (B.state on.new) ways.new.tree }
    ensures ready { WayReady (B.state on.new) ways.new.tree ways.new.kept.items ways.new.tree.depth (last_leaf ways.new.tree.size) }
    ensures over { Over (B.state on.new) ways.new.tree ways.new.kept.items ways.new.limit }
    ensures bytes { (B.state on.old).tells → (leaves_of (B.state on.new) ways.new.tree ways.new.kept.items ways.new.limit).bytes ≡ (leaves_of (B.state on.old) ways.old.tree ways.old.kept.items ways.old.limit).bytes }
    ensures beside { (B.state on.old).tells → StaysBeside (B.state on.old) (B.state on.new) ways.old.tree ways.new.tree (ways.old.tree.depth - 1) (last_leaf ways.old.tree.size / 409) }
    ensures owns { (B.state on.old).tells → (b : ℕ) → HasBlock (B.state on.new) ways.new.tree b → HasBlock (B.state on.old) ways.old.tree b ⊎ Made (B.state on.old) (B.state on.new) b }
    ensures stays { (B.state on.old).tells → (b : ℕ) → HasBlock (B.state on.old) ways.old.tree b → ((B.state on.old).label b).epoch ≡ (B.state on.old).high → HasBlock (B.state on.new) ways.new.tree b }
    ensures changes { Changes ways.old.tree.tag (HasBlock (B.state on.old) ways.old.tree) (λ b. HasBlock (B.state on.old) ways.old.tree b × (((B.state on.old).label b).kind ≢ kind_at ways.old.tree.dir 0)) (B.state on.old) (B.state on.new) }
    ensures spare { (B.state on.old).spare ≤ (B.state on.new).spare + ways.old.tree.depth }
    ensures less { IsTopCurrent (B.state on.old) ways.old.tree → (B.state on.old).spare ≤ (B.state on.new).spare + (ways.old.tree.depth - 1) }
    ensures dirties { Dirties (2 * ways.old.tree.depth) (OnEnd (B.state on.new) ways.new.tree) (B.state on.old) (B.state on.new) }
    ensures room { (B.state on.new).room ≡ (B.state on.old).room }
    ensures shown { ShowsNoMore (B.state on.old).may_leave (B.state on.new).may_leave }
    ensures keeps { B.keeps on.old on.new }
{
    let top = own_end(&ways.tree, &ways.kept, on);
    ways.tree.top = Pointer::Local(top);
}

/// Clears what stands behind the end of a source, whose blocks above the last leaf are current.
fn cut_ways<B: Blocks>(ways: &Ways, on: &mut B)
    requires over { Over (B.state on.old) ways.now.tree ways.now.kept.items ways.now.limit }
    requires ready { 0 < ways.now.tree.size → WayReady (B.state on.old) ways.now.tree ways.now.kept.items ways.now.tree.depth (last_leaf ways.now.tree.size) }
    requires current { IsEndCurrent (B.state on.old) ways.now.tree }
    requires may { (B.state on.old).tells → MayCut (B.state on.old) ways.now.tree (last_leaf ways.now.tree.size) }
    requires room { 409 * ways.now.tree.depth ≤ (B.state on.old).room }
    ensures clear { EndsClear (B.state on.new) ways.now.tree ways.now.kept.items }
    ensures over { Over (B.state on.new) ways.now.tree ways.now.kept.items ways.now.limit }
    ensures bytes { (B.state on.old).tells → (leaves_of (B.state on.new) ways.now.tree ways.now.kept.items ways.now.limit).bytes ≡ (leaves_of (B.state on.old) ways.now.tree ways.now.kept.items ways.now.limit).bytes }
    ensures gone { (B.state on.old).tells → (b : ℕ) → IsPast (B.state on.old) ways.now.tree (last_leaf ways.now.tree.size) b → (Reaches (B.state on.new).now (to_block 1) b → ⊥) × (B.state on.new).covered b }
    ensures shows { (B.state on.old).tells → AllAre (B.state on.old).now (B.state on.old).may_leave → (image : Image) → (B.state on.new).may_leave image → Shows (B.state on.old) image ways.now.tree (last_leaf ways.now.tree.size) }
    ensures cuts { Cuts (CutSlot (B.state on.old) ways.now.tree (last_leaf ways.now.tree.size) (409 * ways.now.tree.depth)) (B.state on.old) (B.state on.new) }
    ensures dirties { (first : B) (blocks : List ℕ) → DirtiesIn blocks (B.state first) (B.state on.old) → ((b : ℕ) → OnEnd (B.state on.old) ways.now.tree b → Contains blocks b) → DirtiesIn blocks (B.state first) (B.state on.new) }
    ensures room { (B.state on.old).room ≤ (B.state on.new).room + 409 * ways.now.tree.depth }
    ensures shown { ShowsNoMore (B.state on.old).may_leave (B.state on.new).may_leave }
    ensures keeps { B.keeps on.old on.new }
{
    cut_behind(&ways.tree, &ways.kept, on);
}
