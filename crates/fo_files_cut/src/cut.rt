//! The data of a file gets a length.
ghost use Rattle.std.specs.Prelude.{◌≡◌, ◌⊎◌, ◌+◌, ◌*◌, ◌%◌, ◌^◌, ◌<◌, ◌≤◌, ℕ, false, min, IfOk, IfErr, Err, ◌∷◌, []};
ghost use Rattle.fo_base.specs.Cause.{Rose};
ghost use Rattle.fo_ports.specs.Causes.{Caused};
ghost use Rattle.fo_ports.specs.State.{Looks};
ghost use Rattle.fo_tree_look.specs.Source.{Over, WayReady};
ghost use Rattle.fo_tree_set.specs.of_tree_down.Clear.{last_leaf};
ghost use Rattle.fo_files_write.specs.of_tree_shorten.Shorten.{EntryAt};
ghost use Rattle.fo_tree_set.specs.Set.{SameForm, SetsBy};
ghost use Rattle.fo_files_dir.specs.Dir.{IsFileAt};
ghost use Rattle.fo_files_write.specs.Alters.{Alters, any_kind};
ghost use Rattle.fo_files_write.specs.Data.{HasData};
ghost use Rattle.fo_files_cut.specs.declared.error.CutError.TheVariants.{TooBig};
ghost use Rattle.fo_files_cut.specs.Cut.{IsData, KeepsUse, CutsBy, CutCaused};
ghost use Rattle.fo_ports.specs.Sources.{AddsDirty};

use crate::error::CutError;
use crate::open::{FILE_LIMIT, opened};
use fo_files_dir::FileAt;
use fo_ports::{BlockError, Blocks};
use fo_tree_look::Ways;
use fo_tree_set::{LengthError, set_len};
use std::alloc::Global;

/// Makes a file so many bytes long, and gives that length: it loses what is behind it, or gets zeros behind its end. Where it is refused, the
/// file's entry has the length that it had. Damaged is the block with its entry where that isn't one of the file's data.
pub fn cut_data<B: Blocks>(
    alloc: Global,
    on: &mut B,
    file: FileAt,
    len: u64,
) -> Result<u64, CutError>
    requires silent { (B.state on.old).tells → ⊥ }
    requires file { IsFileAt (B.state on.old) file }
    requires pins { 15 ≤ (B.state on.old).pins_left }
    requires spare { 9 ≤ (B.state on.old).spare }
    requires room { 3273 ≤ (B.state on.old).room }
    ensures too_big { (2 ^ 40 < len → result ≡ Err TooBig) × (result ≡ Err TooBig → 2 ^ 40 < len) }
    ensures length { IfOk result (λ n. (n ≡ len) × ((generation : ℕ) × HasData (B.state on.new) file generation len)) }
    ensures stays { IfErr result (λ why. (generation size : ℕ) → HasData (B.state on.old) file generation size → HasData (B.state on.new) file generation size) }
    ensures uses { KeepsUse (B.state on.old) (B.state on.new) file.at file.slot }
    ensures cuts { (on.new ≡ on.old) ⊎ CutsBy B B.state on.old on.new file len }
    ensures file { IsFileAt (B.state on.new) file }
    ensures alters { Alters file.at file.slot (32 + 2 * file.number) any_kind (B.state on.old) (B.state on.new) }
    ensures spare { (B.state on.old).spare ≤ (B.state on.new).spare + 9 }
    ensures room { (B.state on.old).room ≤ (B.state on.new).room + 3273 }
    ensures pins { (B.state on.old).pins_left ≤ (B.state on.new).pins_left + 15 }
    ensures dirties { AddsDirty 18 (file.at ∷ []) file.at (B.state on.old) (B.state on.new) }
    ensures keeps { B.keeps on.old on.new }
    ensures cause { IfErr result (CutCaused (2 ^ 40 < len) (λ b. ((b ≡ file.at) × (IsData (B.state on.old) file → ⊥)) ⊎ (IsData (B.state on.old) file × ((B.state on.old).is_block b ⊎ (b ≡ 1)))) (Rose (B.state on.old).faults (B.state on.new).faults) (Rose (B.state on.old).arena_faults (B.state on.new).arena_faults)) }
{
    if len > FILE_LIMIT {
        return Err(CutError::TooBig);
    }
    let mut ways = match opened(alloc, on, file) {
        Ok(ways) => ways,
        Err(why) => return Err(CutError::Blocks(why)),
    };
    match set_data(on, &mut ways, file, len) {
        Ok(()) => Ok(len),
        Err(why) => Err(CutError::Blocks(why)),
    }
}

/// Gives the data of a file that was opened a length within its limit.
fn set_data<B: Blocks>(
    on: &mut B,
    ways: &mut Ways,
    file: FileAt,
    len: u64,
) -> Result<(), BlockError>
    requires silent { (B.state on.old).tells → ⊥ }
    requires over { Over (B.state on.old) ways.old.tree ways.old.kept.items ways.old.limit }
    requires data { (ways.old.tree.dir ≡ false) × (ways.old.tree.rank % 32 ≡ 0) }
    requires entry { EntryAt (B.state on.old) ways.old.tree ways.old.generation file.at file.slot }
    requires tagged { ways.old.tree.tag ≡ 32 + 2 * file.number }
    requires within { len ≤ ways.old.limit }
    requires pins { 15 ≤ (B.state on.old).pins_left }
    requires spare { 9 ≤ (B.state on.old).spare }
    requires room { 3273 ≤ (B.state on.old).room }
    ensures same { SameForm ways.old.tree ways.new.tree × (ways.new.generation ≡ ways.old.generation) }
    ensures size { IfOk result (λ _. ways.new.tree.size ≡ len) }
    ensures stays { IfErr result (λ why. ways.new.tree.size ≡ ways.old.tree.size) }
    ensures entry { EntryAt (B.state on.new) ways.new.tree ways.new.generation file.at file.slot }
    ensures cuts { CutsBy B B.state on.old on.new file len }
    ensures alters { Alters file.at file.slot ways.old.tree.tag any_kind (B.state on.old) (B.state on.new) }
    ensures spare { (B.state on.old).spare ≤ (B.state on.new).spare + 9 }
    ensures room { (B.state on.old).room ≤ (B.state on.new).room + 3273 }
    ensures pins { (B.state on.old).pins_left ≤ (B.state on.new).pins_left + 15 }
    ensures dirties { AddsDirty 18 (file.at ∷ []) file.at (B.state on.old) (B.state on.new) }
    ensures keeps { B.keeps on.old on.new }
    ensures cause { IfErr result (Caused ⊥ (λ b. (B.state on.old).is_block b ⊎ (b ≡ 1)) (Rose (B.state on.old).faults (B.state on.new).faults) (Rose (B.state on.old).arena_faults (B.state on.new).arena_faults)) }
{
    match prepare_end(on, ways, len) {
        Ok(()) => {}
        Err(why) => return Err(why),
    }
    set_ready(on, ways, file, len)
}

/// Prepares the way to the last leaf of a source that stays where it gets this length.
fn prepare_end<B: Blocks>(on: &mut B, ways: &mut Ways, len: u64) -> Result<(), BlockError>
    requires silent { (B.state on.old).tells → ⊥ }
    requires over { Over (B.state on.old) ways.old.tree ways.old.kept.items ways.old.limit }
    requires pins { 15 ≤ (B.state on.old).pins_left }
    ensures same { (ways.new.tree ≡ ways.old.tree) × (ways.new.generation ≡ ways.old.generation) × (ways.new.limit ≡ ways.old.limit) }
    ensures over { Over (B.state on.new) ways.new.tree ways.new.kept.items ways.new.limit }
    ensures ready { IfOk result (λ _. 0 < ways.new.tree.size → WayReady (B.state on.new) ways.new.tree ways.new.kept.items ways.new.tree.depth (last_leaf (min ways.new.tree.size len))) }
    ensures pins { (B.state on.old).pins_left ≤ (B.state on.new).pins_left + 15 }
    ensures looks { Looks (B.state on.old) (B.state on.new) × B.keeps on.old on.new }
    ensures cause { IfErr result (Caused ⊥ (λ b. (B.state on.old).is_block b ⊎ (b ≡ 1)) (Rose (B.state on.old).faults (B.state on.new).faults) (Rose (B.state on.old).arena_faults (B.state on.new).arena_faults)) }
{
    let size = ways.len();
    ways.prepare(on, size.min(len).saturating_sub(1), size.min(1))
}

/// Gives a source of data the way to whose last leaf was prepared a length within its limit. Where it is shorter and can't be trimmed, it has
/// its length.
fn set_ready<B: Blocks>(
    on: &mut B,
    ways: &mut Ways,
    file: FileAt,
    len: u64,
) -> Result<(), BlockError>
    requires silent { (B.state on.old).tells → ⊥ }
    requires over { Over (B.state on.old) ways.old.tree ways.old.kept.items ways.old.limit }
    requires data { (ways.old.tree.dir ≡ false) × (ways.old.tree.rank % 32 ≡ 0) }
    requires entry { EntryAt (B.state on.old) ways.old.tree ways.old.generation file.at file.slot }
    requires ready { 0 < ways.old.tree.size → WayReady (B.state on.old) ways.old.tree ways.old.kept.items ways.old.tree.depth (last_leaf (min ways.old.tree.size len)) }
    requires within { len ≤ ways.old.limit }
    requires spare { 9 ≤ (B.state on.old).spare }
    requires room { 3273 ≤ (B.state on.old).room }
    ensures same { SameForm ways.old.tree ways.new.tree × (ways.new.generation ≡ ways.old.generation) }
    ensures size { IfOk result (λ _. ways.new.tree.size ≡ len) }
    ensures stays { IfErr result (λ why. ways.new.tree.size ≡ ways.old.tree.size) }
    ensures entry { EntryAt (B.state on.new) ways.new.tree ways.new.generation file.at file.slot }
    ensures sets { SetsBy B B.state on.old on.new ways.old.tree ways.new.tree ways.old.kept.items ways.old.generation file.at file.slot len }
    ensures spare { (B.state on.old).spare ≤ (B.state on.new).spare + 9 }
    ensures room { (B.state on.old).room ≤ (B.state on.new).room + 3273 }
    ensures pins { (B.state on.new).pins_left ≡ (B.state on.old).pins_left }
    ensures dirties { AddsDirty 18 (file.at ∷ []) file.at (B.state on.old) (B.state on.new) }
    ensures keeps { B.keeps on.old on.new }
    ensures cause { IfErr result (Caused ⊥ (λ b. ⊥) (Rose (B.state on.old).faults (B.state on.new).faults) ⊥) }
{
    let FileAt { at, slot, .. } = file;
    match set_len(ways, on, at, slot, len) {
        Ok(()) => Ok(()),
        Err(LengthError::Refused(why)) => Err(why),
        Err(_) => Ok(()),
    }
}
