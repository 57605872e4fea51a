//! A file gets another length, and its record changes.
ghost use Rattle.std.specs.Prelude.{◌≡◌, ◌⊎◌, ◌+◌, ◌*◌, ◌%◌, ◌^◌, ◌<◌, ◌≤◌, ℕ, length, IfSome, IfOk, IfErr, OnOk, OnErr, ◌∷◌, []};
ghost use Rattle.fo_base.specs.Cause.{Rose};
ghost use Rattle.fo_image.specs.Record.{RecordHolds};
ghost use Rattle.fo_ports.specs.Causes.{Caused};
ghost use Rattle.fo_files_dir.specs.Dir.{IsDirAt, IsFileAt};
ghost use Rattle.fo_files_record.specs.Leaf.{IsEntriesAt};
ghost use Rattle.fo_files_cut.specs.of_files_write.Alters.{Alters, any_kind};
ghost use Rattle.fo_files_cut.specs.of_files_write.Data.{HasData};
ghost use Rattle.fo_files_cut.specs.Cut.{KeepsUse, CutsBy};
ghost use Rattle.fo_files_into.specs.Into.{MayCut, UnchangedBy, Edits};
ghost use Rattle.fo_ports.specs.Sources.{AddsDirty};

use fo_base::BLOCK;
use fo_dir_change::change_record;
use fo_files_along::Stand;
use fo_files_along::files_at::RECORDS_BELOW;
use fo_files_cut::{CutError, cut_data};
use fo_files_dir::FileAt;
use fo_files_ready::ready_record;
use fo_files_record::read;
use fo_image::Record;
use fo_ports::{BlockError, Blocks};
use std::alloc::Global;

/// Gives a file a length of up to 2^40 bytes.
fn cut<B: Blocks>(alloc: Global, on: &mut B, file: FileAt, n: u64) -> Result<(), BlockError>
    requires silent { (B.state on.old).tells → ⊥ }
    requires file { IsFileAt (B.state on.old) file }
    requires within { n ≤ 2 ^ 40 }
    requires pins { 15 ≤ (B.state on.old).pins_left }
    requires spare { 9 ≤ (B.state on.old).spare }
    requires room { 3273 ≤ (B.state on.old).room }
    ensures sized { OnOk result ((generation : ℕ) × HasData (B.state on.new) file generation n) }
    ensures stays { OnErr result ((generation size : ℕ) → HasData (B.state on.old) file generation size → HasData (B.state on.new) file generation size) }
    ensures uses { KeepsUse (B.state on.old) (B.state on.new) file.at file.slot }
    ensures cuts { (on.new ≡ on.old) ⊎ CutsBy B B.state on.old on.new file n }
    ensures alters { Alters file.at file.slot (32 + 2 * file.number) any_kind (B.state on.old) (B.state on.new) }
    ensures spare { (B.state on.old).spare ≤ (B.state on.new).spare + 9 }
    ensures cause { IfErr result (Caused ⊥ (λ b. (B.state on.old).is_block b ⊎ (b ≡ 1)) (Rose (B.state on.old).faults (B.state on.new).faults) (Rose (B.state on.old).arena_faults (B.state on.new).arena_faults)) }
    ensures dirties { AddsDirty 18 (file.at ∷ []) file.at (B.state on.old) (B.state on.new) }
    ensures keeps { B.keeps on.old on.new }
{
    match cut_data(alloc, on, file, n) {
        Ok(_) => Ok(()),
        Err(CutError::Blocks(why)) => Err(why),
        Err(CutError::TooBig) => Err(BlockError::Memory),
    }
}

/// Gives a file the length that is given, of up to 2^40 bytes, where one is.
fn cut_given<B: Blocks>(
    alloc: Global,
    on: &mut B,
    file: FileAt,
    given: Option<u64>,
) -> Result<(), BlockError>
    requires silent { (B.state on.old).tells → ⊥ }
    requires file { IsFileAt (B.state on.old) file }
    requires within { IfSome given (λ n. n ≤ 2 ^ 40) }
    requires pins { 15 ≤ (B.state on.old).pins_left }
    requires spare { 9 ≤ (B.state on.old).spare }
    requires room { 3273 ≤ (B.state on.old).room }
    ensures sized { OnOk result (IfSome given (λ n. (generation : ℕ) × HasData (B.state on.new) file generation n)) }
    ensures stays { OnErr result ((generation size : ℕ) → HasData (B.state on.old) file generation size → HasData (B.state on.new) file generation size) }
    ensures uses { KeepsUse (B.state on.old) (B.state on.new) file.at file.slot }
    ensures cuts { MayCut B B.state on.old on.new file given }
    ensures alters { Alters file.at file.slot (32 + 2 * file.number) any_kind (B.state on.old) (B.state on.new) }
    ensures spare { (B.state on.old).spare ≤ (B.state on.new).spare + 9 }
    ensures cause { IfErr result (Caused ⊥ (λ b. (B.state on.old).is_block b ⊎ (b ≡ 1)) (Rose (B.state on.old).faults (B.state on.new).faults) (Rose (B.state on.old).arena_faults (B.state on.new).arena_faults)) }
    ensures dirties { AddsDirty 18 (file.at ∷ []) file.at (B.state on.old) (B.state on.new) }
    ensures keeps { B.keeps on.old on.new }
{
    match given {
        Some(n) => match cut(alloc, on, file, n) {
            Ok(()) => Ok(()),
            Err(why) => Err(why),
        },
        None => Ok(()),
    }
}

/// Gives a file the length that is given, where one is, and puts a record in the place of the first of this name in leaf `i` of its directory's
/// records, which may move to leaf `spare` before. All that may be refused comes before the record.
pub fn change_into<B: Blocks>(
    alloc: Global,
    on: &mut B,
    at: Stand,
    i: u32,
    spare: u32,
    name: &[u8],
    named: &Record,
    given: Option<u64>,
) -> Result<(), BlockError>
    requires silent { (B.state on.old).tells → ⊥ }
    requires dir { IsDirAt (B.state on.old) at.dir }
    requires file { IsFileAt (B.state on.old) at.file }
    requires entries { IsEntriesAt (B.state on.old) at.file.at }
    requires spelled { RecordHolds named.now }
    requires within { IfSome given (λ n. n ≤ 2 ^ 40) }
    requires pins { 75 ≤ (B.state on.old).pins_left }
    requires spare { 20 ≤ (B.state on.old).spare }
    requires room { 4910 ≤ (B.state on.old).room }
    ensures edits { OnOk result (Edits B B.state on.old on.new at.dir at.file i spare name.now named.now given) }
    ensures left { OnErr result (UnchangedBy B B.state on.old on.new at.dir at.file i spare name.now given) }
    ensures spare { (B.state on.old).spare ≤ (B.state on.new).spare + 20 }
    ensures usable { (B.state on.old).usable + (B.state on.new).spare ≤ (B.state on.new).usable + (B.state on.old).spare }
    ensures cause { IfErr result (Caused ⊥ (λ b. (B.state on.old).is_block b ⊎ (b ≡ 1)) (Rose (B.state on.old).faults (B.state on.new).faults) (Rose (B.state on.old).arena_faults (B.state on.new).arena_faults)) }
    ensures dirties { AddsDirty 40 (at.dir.at ∷ at.file.at ∷ []) at.dir.at (B.state on.old) (B.state on.new) }
    ensures keeps { B.keeps on.old on.new }
{
    let Stand { dir, file, .. } = at;
    let leaf = match ready_record(alloc, on, dir, file.at, i, spare, name, named) {
        Ok(leaf) => leaf,
        Err(why) => return Err(why),
    };
    let mut bytes = [0; BLOCK];
    match read(on, leaf, dir.rank - RECORDS_BELOW, &mut bytes) {
        Ok(()) => {}
        Err(why) => return Err(why),
    }
    match cut_given(alloc, on, file, given) {
        Ok(()) => {}
        Err(why) => return Err(why),
    }
    let _ = change_record(on, leaf, name, named, &mut bytes);
    Ok(())
}
