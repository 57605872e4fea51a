//! A new file comes into a directory, whose own record changes.
ghost use Rattle.std.specs.Prelude.{◌≡◌, ◌⊎◌, ◌+◌, ◌^◌, ◌<◌, ◌≤◌, IfOk, IfErr, OnOk, OnErr, ◌∷◌, [], ◌*◌};
ghost use Rattle.fo_base.specs.Cause.{Rose};
ghost use Rattle.fo_image.specs.Record.{RecordHolds};
ghost use Rattle.fo_ports.specs.Causes.{Caused};
ghost use Rattle.fo_files_new.specs.of_dir_add.Adds.{IsNumbered};
ghost use Rattle.fo_files_dir.specs.Dir.{IsDirAt};
ghost use Rattle.fo_files_own.specs.Own.{IsApartFrom, IsOwnAt, MayOwn, block_of, blocks_for};
ghost use Rattle.fo_files_create.specs.Create.{LeavesNew, MakesNew};
ghost use Rattle.fo_ports.specs.Sources.{AddsDirty};

use fo_files_create_look::files_spot::Spot;
use fo_files_dir::DirAt;
use fo_files_new::new_file;
use fo_files_own::{OwnAt, put_own, ready_own};
use fo_image::Record;
use fo_ports::{BlockError, Blocks};
use std::alloc::Global;

/// Puts a new file with this record, whose number was granted, into a directory, and then the directory's own record. Gives the file's record, with
/// its pair. Refused before any record is other than it was.
pub(crate) fn put_new<B: Blocks>(
    alloc: Global,
    on: &mut B,
    dir: DirAt,
    own: OwnAt,
    touched: &Record,
    spot: Spot,
    named: Record,
) -> Result<Record, BlockError>
    requires silent { (B.state on.old).tells → ⊥ }
    requires dir { IsDirAt (B.state on.old) dir }
    requires own { IsOwnAt (B.state on.old) own × IsApartFrom dir own }
    requires touched { MayOwn own touched.now }
    requires named { RecordHolds named × (named.number < 2 ^ 30) }
    requires granted { (B.state on.old).grants }
    requires pins { 141 ≤ (B.state on.old).pins_left }
    requires spare { 40 ≤ (B.state on.old).spare }
    requires room { 3274 ≤ (B.state on.old).room }
    ensures makes { IfOk result (λ r. MakesNew B B.state on.old on.new dir own touched.now spot named r) }
    ensures record { IfOk result (λ r. RecordHolds r × IsNumbered named spot.pair r.generation r) }
    ensures next { OnOk result ((B.state on.new).next ≡ (B.state on.old).next + 1) }
    ensures left { OnErr result (LeavesNew B B.state on.old on.new dir own touched.now.name) }
    ensures numbers { OnErr result ((B.state on.new).next ≡ (B.state on.old).next) }
    ensures taken { (B.state on.old).usable ≤ (B.state on.new).usable + 40 }
    ensures cause { IfErr result (Caused ⊥ (λ b. (B.state on.old).is_block b ⊎ (b ≡ 1)) (Rose (B.state on.old).faults (B.state on.new).faults) (Rose (B.state on.old).arena_faults (B.state on.new).arena_faults)) }
    ensures dirties { AddsDirty (2 * (24 + blocks_for own)) (dir.at ∷ block_of own ∷ []) dir.at (B.state on.old) (B.state on.new) }
    ensures keeps { B.keeps on.old on.new }
{
    let ready = match ready_own(alloc, on, own, touched) {
        Ok(ready) => ready,
        Err(why) => return Err(why),
    };
    let made = match new_file(alloc, on, dir, spot.pair, spot.leaf, named) {
        Ok(made) => made,
        Err(why) => return Err(why),
    };
    on.number_taken();
    put_own(on, ready);
    Ok(made)
}
