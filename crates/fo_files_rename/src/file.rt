//! A file gets its new record, and its directory's own record changes, where the way was owned.
ghost use Rattle.std.specs.Prelude.{◌≡◌, ◌⊎◌, ◌+◌, ◌^◌, ◌<◌, ◌≤◌, ℕ, IfSome, IfErr, OnOk, OnErr, ◌∷◌, [], ◌*◌};
ghost use Rattle.fo_base.specs.Cause.{Rose};
ghost use Rattle.fo_image.specs.Record.{RecordHolds};
ghost use Rattle.fo_ports.specs.Causes.{Caused};
ghost use Rattle.fo_files_dir.specs.Dir.{IsDirAt, IsFileAt};
ghost use Rattle.fo_files_own.specs.of_files_record.Leaf.{IsEntriesAt};
ghost use Rattle.fo_files_own.specs.Own.{IsApartFrom, IsOwnAt, MayOwn, block_of, blocks_for};
ghost use Rattle.fo_files_rename.specs.Rename.{IsBeside, LeavesFile, RenamesFile};
ghost use Rattle.fo_ports.specs.Sources.{AddsDirty};

use fo_files_dir::FileAt;
use fo_files_edit::files_along::Stand;
use fo_files_edit::files_into::change_into;
use fo_files_own::{OwnAt, put_own, ready_own};
use fo_image::Record;
use fo_ports::{BlockError, Blocks};
use std::alloc::Global;

/// Tests that a root block with a directory's own record is none of the data of this file; a damaged one may be.
pub(crate) fn beside_data<B: Blocks>(on: &B, own: OwnAt, file: FileAt) -> Result<(), BlockError>
    requires own { IsOwnAt (B.state on.now) own }
    ensures beside { OnOk result (IsBeside (B.state on.now) own file.number) }
    ensures cause { IfErr result (Caused ⊥ (λ b. (B.state on.now).is_block b ⊎ (b ≡ 1)) ⊥ ⊥) }
{
    match own {
        OwnAt::Root(root) => {
            if u64::from(on.label(root).tag) == 32 + 2 * u64::from(file.number) {
                return Err(BlockError::Damaged(root));
            }
            Ok(())
        }
        OwnAt::Below(_) => Ok(()),
    }
}

/// Makes a directory's own record ready, gives a file in it the length that is given, where one is, and puts the file's record in the place of the
/// first of this name in leaf `i` of the records, which may move to leaf `spare` before; and last the own record. All that may be refused comes before
/// any record is other than it was.
pub(crate) fn rename_file<B: Blocks>(
    alloc: Global,
    on: &mut B,
    at: Stand,
    own: OwnAt,
    touched: &Record,
    i: u32,
    spare: u32,
    name: &[u8],
    named: &Record,
    given: Option<u64>,
) -> Result<(), BlockError>
    requires silent { (B.state on.old).tells → ⊥ }
    requires dir { IsDirAt (B.state on.old) at.dir }
    requires file { IsFileAt (B.state on.old) at.file }
    requires entries { IsEntriesAt (B.state on.old) at.file.at }
    requires own { IsOwnAt (B.state on.old) own × IsApartFrom at.dir own }
    requires beside { IsBeside (B.state on.old) own at.file.number }
    requires touched { MayOwn own touched.now }
    requires spelled { RecordHolds named.now }
    requires within { IfSome given (λ n. n ≤ 2 ^ 40) }
    requires pins { 135 ≤ (B.state on.old).pins_left }
    requires spare { 31 ≤ (B.state on.old).spare }
    requires room { 6547 ≤ (B.state on.old).room }
    ensures renames { OnOk result (RenamesFile B B.state on.old on.new at.dir at.file own touched.now i spare name.now named.now given) }
    ensures left { OnErr result (LeavesFile B B.state on.old on.new at.dir at.file own touched.now.name i spare name.now given) }
    ensures spare { (B.state on.old).spare ≤ (B.state on.new).spare + 31 }
    ensures usable { (B.state on.old).usable + (B.state on.new).spare ≤ (B.state on.new).usable + (B.state on.old).spare }
    ensures cause { IfErr result (Caused ⊥ (λ b. (B.state on.old).is_block b ⊎ (b ≡ 1)) (Rose (B.state on.old).faults (B.state on.new).faults) (Rose (B.state on.old).arena_faults (B.state on.new).arena_faults)) }
    ensures dirties { AddsDirty (2 * (20 + blocks_for own)) (at.dir.at ∷ at.file.at ∷ block_of own ∷ []) at.dir.at (B.state on.old) (B.state on.new) }
    ensures keeps { B.keeps on.old on.new }
{
    let ready = match ready_own(alloc, on, own, touched) {
        Ok(ready) => ready,
        Err(why) => return Err(why),
    };
    match change_into(alloc, on, at, i, spare, name, named, given) {
        Ok(()) => {
            put_own(on, ready);
            Ok(())
        }
        Err(why) => Err(why),
    }
}
