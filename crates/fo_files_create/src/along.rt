//! A file is made in the directory at the end of a way.
ghost use Rattle.std.specs.Prelude.{◌≡◌, ◌⊎◌, ◌+◌, ◌*◌, ◌^◌, ◌<◌, ◌≤◌, true, length, IfOk, IfErr, OnOk, OnErr};
ghost use Rattle.fo_base.specs.Cause.{Rose};
ghost use Rattle.fo_image.specs.Record.{RecordHolds, RootRecordHolds};
ghost use Rattle.fo_ports.specs.Causes.{Caused};
ghost use Rattle.fo_world.specs.Step.{need};
ghost use Rattle.fo_files_new.specs.of_dir_add.Adds.{IsNumbered};
ghost use Rattle.fo_files_create_look.specs.of_files_at.Way.{IsWay};
ghost use Rattle.fo_files_create.specs.Create.{LeavesAlong, MakesAlong, last_leaf};
ghost use Rattle.fo_ports.specs.Sources.{Dirties};
ghost use Rattle.fo_ports.specs.State.{none};

use crate::make::put_new;
use fo_files_create_look::files_along::own_dir_along;
use fo_files_create_look::files_at::Way;
use fo_files_create_look::files_spot::Spot;
use fo_files_own::own_at;
use fo_image::Record;
use fo_ports::{BlockError, Blocks};
use std::alloc::Global;

/// The leaf of records that has the record of the directory at the end of a way; 0 for the root directory.
fn own_leaf(way: &Way) -> u32
    ensures { result ≡ last_leaf way.now.steps.items }
{
    match way.steps.as_slice() {
        [.., step] => step.leaf,
        [] => 0,
    }
}

/// Makes a file with this record, whose number was granted, in the directory at the end of a way, whose own record is the one that the way has.
/// Gives the file's record, with its pair.
pub(crate) fn make_along<B: Blocks>(
    alloc: Global,
    on: &mut B,
    root: u32,
    trail: &[u32],
    way: &Way,
    spare: u32,
    spot: Spot,
    named: Record,
) -> Result<Record, BlockError>
    requires silent { (B.state on.old).tells → ⊥ }
    requires way { IsWay (B.state on.old) root trail.now way.now }
    requires dir { way.now.file.dir ≡ true }
    requires of_root { length trail.now ≡ 0 → RootRecordHolds way.now.file.named }
    requires short { length trail.now ≤ 65 }
    requires named { RecordHolds named × (named.number < 2 ^ 30) }
    requires granted { (B.state on.old).grants }
    requires spare { need (length trail.now) 0 ≤ (B.state on.old).spare }
    requires pins { 20 * length trail.now + 142 ≤ (B.state on.old).pins_left }
    requires room { 3274 ≤ (B.state on.old).room }
    ensures makes { IfOk result (λ r. MakesAlong B B.state on.old on.new root trail.now way.now spot named r) }
    ensures record { IfOk result (λ r. RecordHolds r × IsNumbered named spot.pair r.generation r) }
    ensures next { OnOk result ((B.state on.new).next ≡ (B.state on.old).next + 1) }
    ensures left { OnErr result (LeavesAlong B B.state on.old on.new root trail.now) }
    ensures numbers { OnErr result ((B.state on.new).next ≡ (B.state on.old).next) }
    ensures taken { (B.state on.old).usable ≤ (B.state on.new).usable + need (length trail.now) 0 }
    ensures cause { IfErr result (Caused ⊥ (λ b. (B.state on.old).is_block b ⊎ (b ≡ 1)) (Rose (B.state on.old).faults (B.state on.new).faults) (Rose (B.state on.old).arena_faults (B.state on.new).arena_faults)) }
    ensures dirties { Dirties (2 * need (length trail.now) 0) none (B.state on.old) (B.state on.new) }
    ensures keeps { B.keeps on.old on.new }
{
    let _ = root;
    let _ = trail;
    let stand = match own_dir_along(alloc, on, way) {
        Ok(stand) => stand,
        Err(why) => return Err(why),
    };
    let own = own_at(stand.dir, stand.above, own_leaf(way), spare);
    match put_new(alloc, on, stand.dir, own, &way.file.named, spot, named) {
        Ok(made) => Ok(made),
        Err(why) => Err(why),
    }
}
