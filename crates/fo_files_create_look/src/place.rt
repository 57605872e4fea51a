//! The directory at a place, and where a new file goes in it.
ghost use Rattle.std.specs.Prelude.{◌≡◌, ◌+◌, ◌*◌, ◌<◌, ◌≤◌, ℕ, List, Bool, true, false, length, IfOk, IfErr, OnOk};
ghost use Rattle.fo_base.specs.Cause.{Rose};
ghost use Rattle.fo_image.specs.Record.{RecordHolds, RootRecordHolds};
ghost use Rattle.fo_ports.specs.Causes.{Caused};
ghost use Rattle.fo_ports.specs.State.{Looks};
ghost use Rattle.fo_world.specs.Answers.{Refuses};
ghost use Rattle.fo_world.specs.Limits.{IsUser};
ghost use Rattle.fo_dir_read.specs.Names.{leaf_count};
ghost use Rattle.fo_files_along.specs.of_files_at.Way.{IsWay};
ghost use Rattle.fo_files_along.specs.of_files_look.Told.{faults_of, MayLook};
ghost use Rattle.fo_files_create_look.specs.Refused.{IsRefused};

use crate::names::touched_len;
use fo_base::Bytes;
use fo_files_along::files_at::{Way, at_place};
use fo_files_along::files_look::file_error;
use fo_files_along::{is_of_root, spare_for};
use fo_files_spot::{Spot, spot_for};
use fo_image::{Record, record_len};
use fo_ports::{BlockError, Blocks};
use fo_world::{FileError, Place};
use std::alloc::Global;

/// Where a new file goes in a directory, and the leaf for the directory's own record where that outgrows its leaf.
#[derive(Clone, Copy, Debug)]
pub(crate) struct Places {
    pub(crate) spot: Spot,
    pub(crate) spare: u32,
}

/// The way, where it leads to a directory. A root block with another record than that of a root directory is damaged.
fn to_dir<B: Blocks>(on: &B, root: u32, at: &Place, way: Way) -> Result<Way, FileError>
    requires way { IsWay (B.state on.now) root at.now.trail way }
    ensures way { IfOk result (λ w. w ≡ way) }
    ensures dir { OnOk result (way.file.dir ≡ true) }
    ensures of_root { OnOk result (length at.now.trail ≡ 0 → RootRecordHolds way.file.named) }
    ensures refused { IfErr result (λ e. (name : List ℕ) (mode : ℕ) (halted : Bool) → IsRefused B.state root at.now name mode halted ⊥ ⊥ e) }
    ensures cause { Refuses (faults_of (B.state on.now)) (faults_of (B.state on.now)) ⊥ (λ n. ⊥) 0 result }
{
    let _ = on;
    if !way.file.dir {
        return Err(FileError::NotDir);
    }
    if at.trail.as_slice().is_empty() && !is_of_root(&way.file.named) {
        return Err(FileError::Damaged(root));
    }
    Ok(way)
}

/// The way to the directory at a place.
pub(crate) fn way_to_dir<B: Blocks>(
    alloc: Global,
    on: &mut B,
    root: u32,
    at: &Place,
) -> Result<Way, FileError>
    requires may { MayLook (B.state on.old) root }
    ensures way { IfOk result (λ w. IsWay (B.state on.new) root at.now.trail w) }
    ensures dir { IfOk result (λ w. w.file.dir ≡ true) }
    ensures of_root { IfOk result (λ w. length at.now.trail ≡ 0 → RootRecordHolds w.file.named) }
    ensures short { OnOk result (length at.now.trail ≤ 65) }
    ensures refused { IfErr result (λ e. (name : List ℕ) (mode : ℕ) (halted : Bool) → IsRefused B.state root at.now name mode halted ⊥ ⊥ e) }
    ensures looks { Looks (B.state on.old) (B.state on.new) × B.keeps on.old on.new }
    ensures cause { Refuses (faults_of (B.state on.old)) (faults_of (B.state on.new)) ⊥ (λ n. ⊥) 0 result }
{
    match at_place(alloc, on, root, at.trail.as_slice()) {
        Ok(Some(way)) => match to_dir(on, root, at, way) {
            Ok(way) => Ok(way),
            Err(why) => Err(why),
        },
        Ok(None) => Err(FileError::Gone),
        Err(why) => Err(file_error(why)),
    }
}

/// The leaf to which the record of the directory at the end of a way goes after a user changed it; 0 for the root directory.
fn spare_of<B: Blocks>(
    alloc: Global,
    on: &mut B,
    root: u32,
    way: &Way,
    who: &Bytes,
) -> Result<u32, BlockError>
    requires silent { (B.state on.old).tells → ⊥ }
    requires way { (trail : List ℕ) × IsWay (B.state on.old) root trail way.now }
    requires who { IsUser who.now }
    ensures looks { Looks (B.state on.old) (B.state on.new) × B.keeps on.old on.new }
    ensures cause { IfErr result (Caused ⊥ (λ b. (B.state on.old).is_block b) (Rose (B.state on.old).faults (B.state on.new).faults) ⊥) }
{
    let _ = root;
    let was = record_len(&way.file.named);
    let len = touched_len(&way.file.named, who);
    match way.steps.as_slice() {
        [.., step] => match spare_for(alloc, on, step, was, len) {
            Ok(spare) => Ok(spare),
            Err(why) => Err(why),
        },
        [] => Ok(0),
    }
}

/// Where a new file with this record goes in the directory at the end of a way.
pub(crate) fn places_in<B: Blocks>(
    alloc: Global,
    on: &mut B,
    root: u32,
    way: &Way,
    named: &Record,
) -> Result<Places, BlockError>
    requires silent { (B.state on.old).tells → ⊥ }
    requires way { (trail : List ℕ) × IsWay (B.state on.old) root trail way.now }
    requires high { 40 ≤ way.now.file.rank }
    requires named { RecordHolds named.now }
    ensures pair { IfOk result (λ p. p.spot.pair ≤ 102 * leaf_count way.now.file.first.size) }
    ensures leaf { IfOk result (λ p. p.spot.leaf ≤ leaf_count way.now.file.second.size) }
    ensures looks { Looks (B.state on.old) (B.state on.new) × B.keeps on.old on.new }
    ensures cause { IfErr result (Caused ⊥ (λ b. (B.state on.old).is_block b) (Rose (B.state on.old).faults (B.state on.new).faults) ⊥) }
{
    let spot = match spot_for(alloc, on, &way.file, record_len(named)) {
        Ok(spot) => spot,
        Err(why) => return Err(why),
    };
    match spare_of(alloc, on, root, way, &named.muid) {
        Ok(spare) => Ok(Places { spot, spare }),
        Err(why) => Err(why),
    }
}
