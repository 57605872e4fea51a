//! A source of data is made ready to grow.
ghost use Rattle.std.specs.Prelude.{◌≡◌, ◌⊎◌, ◌+◌, ◌*◌, ◌<◌, ◌≤◌, ℕ, true, false, IfOk, IfErr, ◌∷◌, []};
ghost use Rattle.fo_base.specs.Cause.{Rose};
ghost use Rattle.fo_ports.specs.Causes.{Caused};
ghost use Rattle.fo_ports.specs.State.{Looks};
ghost use Rattle.fo_tree_look.specs.Source.{Over, WayReady};
ghost use Rattle.fo_tree_trim.specs.of_tree_down.Clear.{EndsClear, last_leaf};
ghost use Rattle.fo_tree_shorten.specs.Shorten.{EntryAt};
ghost use Rattle.fo_files_write.specs.Alters.{Alters, is_above};
ghost use Rattle.fo_files_write.specs.Data.{SameData};
ghost use Rattle.fo_ports.specs.Sources.{AddsDirty};

use fo_ports::{BlockError, Blocks, Bytes};
use fo_tree::Source;
use fo_tree_look::Ways;
use fo_tree_shorten::{cut, make_ready};
use fo_tree_trim::is_clear_behind;

/// Prepares the way to a source's last leaf.
fn prepare_end<B: Blocks>(on: &mut B, source: &mut Source) -> Result<(), BlockError>
    requires silent { (B.state on.old).tells → ⊥ }
    requires over { Over (B.state on.old) source.old.ways.tree source.old.ways.kept.items source.old.ways.limit }
    requires pins { 15 ≤ (B.state on.old).pins_left }
    ensures same { (source.new.ways.tree ≡ source.old.ways.tree) × (source.new.ways.generation ≡ source.old.ways.generation) × (source.new.ways.limit ≡ source.old.ways.limit) }
    ensures over { Over (B.state on.new) source.new.ways.tree source.new.ways.kept.items source.new.ways.limit }
    ensures ready { IfOk result (λ _. 0 < source.new.ways.tree.size → WayReady (B.state on.new) source.new.ways.tree source.new.ways.kept.items source.new.ways.tree.depth (last_leaf source.new.ways.tree.size)) }
    ensures pins { (B.state on.old).pins_left ≤ (B.state on.new).pins_left + 15 }
    ensures looks { Looks (B.state on.old) (B.state on.new) × B.keeps on.old on.new }
    ensures cause { IfErr result (Caused ⊥ (λ b. (B.state on.old).is_block b ⊎ (b ≡ 1)) (Rose (B.state on.old).faults (B.state on.new).faults) (Rose (B.state on.old).arena_faults (B.state on.new).arena_faults)) }
{
    let size = source.ways.len();
    source.ways.prepare(on, size.saturating_sub(1), size.min(1))
}

/// Whether nothing stands behind the end of a source.
fn is_clear<B: Blocks>(ways: &Ways, on: &B) -> bool
    requires over { Over (B.state on.now) ways.now.tree ways.now.kept.items ways.now.limit }
    requires ready { 0 < ways.now.tree.size → WayReady (B.state on.now) ways.now.tree ways.now.kept.items ways.now.tree.depth (last_leaf ways.now.tree.size) }
    ensures yes { result ≡ true → EndsClear (B.state on.now) ways.now.tree ways.now.kept.items }
    ensures deep { result ≡ false → 0 < ways.now.tree.depth }
{
    is_clear_behind(&ways.tree, &ways.kept, on)
}

/// Cuts what stands behind the end of a source, after its blocks there were made current, it was linked, and all was settled. Where that is
/// refused, nothing is cut.
fn cut_end<B: Blocks>(on: &mut B, ways: &mut Ways, at: u32, slot: u32) -> Result<(), BlockError>
    requires silent { (B.state on.old).tells → ⊥ }
    requires over { Over (B.state on.old) ways.old.tree ways.old.kept.items ways.old.limit }
    requires data { ways.old.tree.dir ≡ false }
    requires deep { 0 < ways.old.tree.depth }
    requires entry { EntryAt (B.state on.old) ways.old.tree ways.old.generation at slot }
    requires ready { WayReady (B.state on.old) ways.old.tree ways.old.kept.items ways.old.tree.depth (last_leaf ways.old.tree.size) }
    requires spare { 4 ≤ (B.state on.old).spare }
    requires room { 1636 ≤ (B.state on.old).room }
    ensures same { SameData ways.old.tree ways.new.tree × (ways.new.generation ≡ ways.old.generation) × (ways.new.limit ≡ ways.old.limit) }
    ensures over { Over (B.state on.new) ways.new.tree ways.new.kept.items ways.new.limit }
    ensures entry { EntryAt (B.state on.new) ways.new.tree ways.new.generation at slot }
    ensures clear { IfOk result (λ _. EndsClear (B.state on.new) ways.new.tree ways.new.kept.items) }
    ensures alters { Alters at slot ways.old.tree.tag is_above (B.state on.old) (B.state on.new) }
    ensures spare { (B.state on.old).spare ≤ (B.state on.new).spare + 4 }
    ensures room { (B.state on.old).room ≤ (B.state on.new).room + 1636 }
    ensures pins { (B.state on.new).pins_left ≡ (B.state on.old).pins_left }
    ensures dirties { AddsDirty 8 (at ∷ []) at (B.state on.old) (B.state on.new) }
    ensures keeps { B.keeps on.old on.new }
    ensures cause { IfErr result (Caused ⊥ (λ b. ⊥) (Rose (B.state on.old).faults (B.state on.new).faults) ⊥) }
{
    make_ready(ways, on, at, slot);
    match on.settle() {
        Ok(()) => {
            cut(ways, on, at, slot);
            Ok(())
        }
        Err(why) => Err(why),
    }
}

/// Clears what stands behind the end of a source of data, whose entry stands in a slot of block `at`, where it has to grow to this end.
pub(crate) fn trim_for<B: Blocks>(
    on: &mut B,
    source: &mut Source,
    at: u32,
    slot: u32,
    end: u64,
) -> Result<(), BlockError>
    requires silent { (B.state on.old).tells → ⊥ }
    requires over { Over (B.state on.old) source.old.ways.tree source.old.ways.kept.items source.old.ways.limit }
    requires data { source.old.ways.tree.dir ≡ false }
    requires entry { EntryAt (B.state on.old) source.old.ways.tree source.old.ways.generation at slot }
    requires pins { 15 ≤ (B.state on.old).pins_left }
    requires spare { 4 ≤ (B.state on.old).spare }
    requires room { 1636 ≤ (B.state on.old).room }
    ensures same { SameData source.old.ways.tree source.new.ways.tree × (source.new.ways.generation ≡ source.old.ways.generation) × (source.new.ways.limit ≡ source.old.ways.limit) }
    ensures over { Over (B.state on.new) source.new.ways.tree source.new.ways.kept.items source.new.ways.limit }
    ensures entry { EntryAt (B.state on.new) source.new.ways.tree source.new.ways.generation at slot }
    ensures clear { IfOk result (λ _. source.new.ways.tree.size < end → EndsClear (B.state on.new) source.new.ways.tree source.new.ways.kept.items) }
    ensures alters { Alters at slot source.old.ways.tree.tag is_above (B.state on.old) (B.state on.new) }
    ensures spare { (B.state on.old).spare ≤ (B.state on.new).spare + 4 }
    ensures room { (B.state on.old).room ≤ (B.state on.new).room + 1636 }
    ensures pins { (B.state on.old).pins_left ≤ (B.state on.new).pins_left + 15 }
    ensures dirties { AddsDirty 8 (at ∷ []) at (B.state on.old) (B.state on.new) }
    ensures keeps { B.keeps on.old on.new }
    ensures cause { IfErr result (Caused ⊥ (λ b. (B.state on.old).is_block b ⊎ (b ≡ 1)) (Rose (B.state on.old).faults (B.state on.new).faults) (Rose (B.state on.old).arena_faults (B.state on.new).arena_faults)) }
{
    if end <= source.ways.len() {
        return Ok(());
    }
    match prepare_end(on, source) {
        Ok(()) => {}
        Err(why) => return Err(why),
    }
    if is_clear(&source.ways, on) {
        return Ok(());
    }
    cut_end(on, &mut source.ways, at, slot)
}
