//! What a removal looks at before it reserves.
ghost use Rattle.std.specs.Prelude.{◌≡◌, ◌-◌, ◌<◌, ◌≤◌, ℕ, List, Bool, true, false, length, get_or, IfOk, IfErr, OnOk};
ghost use Rattle.fo_base.specs.Cause.{Rose};
ghost use Rattle.fo_image.specs.Record.{RecordHolds, RootRecordHolds};
ghost use Rattle.fo_ports.specs.Causes.{Caused};
ghost use Rattle.fo_ports.specs.State.{Looks};
ghost use Rattle.fo_world.specs.declared.error.FileError.TheVariants.{Memory};
ghost use Rattle.fo_world.specs.declared.place.View.{View};
ghost use Rattle.fo_world.specs.Answers.{Refuses};
ghost use Rattle.fo_world.specs.Limits.{IsBelowRoot, IsUser};
ghost use Rattle.fo_world.specs.Step.{is_active};
ghost use Rattle.fo_files_along.specs.of_files_at.declared.at.Step.{Step};
ghost use Rattle.fo_files_along.specs.of_files_at.declared.at.Way.{Way};
ghost use Rattle.fo_files_along.specs.of_files_at.Held.{FileHolds};
ghost use Rattle.fo_files_along.specs.of_files_at.Way.{IsWay};
ghost use Rattle.fo_files_along.specs.of_files_look.Told.{faults_of, MayLook};
ghost use Rattle.fo_files_along.specs.Along.{touched};
ghost use Rattle.fo_files_take.specs.Take.{IsFound, IsRefused};

use fo_base::Bytes;
use fo_dir_list::count;
use fo_files_along::files_at::{File, RECORDS_BELOW, Step, Way, at_place, records_of};
use fo_files_along::files_look::file_error;
use fo_files_along::{is_of_root, spare_for, touch};
use fo_files_own::copied;
use fo_image::{Record, record_len};
use fo_ports::{BlockError, Blocks};
use fo_world::{FileError, Place, View};
use std::alloc::Global;

/// What was found for a removal: the way to the file, the record that its directory has then, and the leaf for that where it outgrows its own.
#[derive(Debug, Drop)]
pub(crate) struct Found {
    pub(crate) way: Way,
    pub(crate) own: Record,
    pub(crate) spare: u32,
}

/// Whether a directory has names.
fn has_names<B: Blocks>(alloc: Global, on: &mut B, dir: &File) -> Result<bool, BlockError>
    requires silent { (B.state on.old).tells → ⊥ }
    requires holds { FileHolds (B.state on.old) dir.now }
    requires high { 40 ≤ dir.now.rank }
    ensures looks { Looks (B.state on.old) (B.state on.new) × B.keeps on.old on.new }
    ensures cause { IfErr result (Caused ⊥ (λ b. (B.state on.old).is_block b) (Rose (B.state on.old).faults (B.state on.new).faults) ⊥) }
{
    let mut records = match records_of(alloc, on, dir) {
        Ok(records) => records,
        Err(why) => return Err(why),
    };
    match count(&mut records, on, dir.rank - RECORDS_BELOW) {
        Ok(names) => Ok(0 < names),
        Err(why) => Err(why),
    }
}

/// Whether a file is a directory with names.
fn is_filled<B: Blocks>(
    alloc: Global,
    on: &mut B,
    root: u32,
    file: &File,
) -> Result<bool, FileError>
    requires may { MayLook (B.state on.old) root }
    requires holds { FileHolds (B.state on.old) file.now }
    ensures dir { IfOk result (λ filled. filled ≡ true → file.now.dir ≡ true) }
    ensures aside { IfErr result (λ e. (view : View) (halted : Bool) → IsRefused view halted ⊥ e) }
    ensures looks { Looks (B.state on.old) (B.state on.new) × B.keeps on.old on.new }
    ensures cause { Refuses (faults_of (B.state on.old)) (faults_of (B.state on.new)) ⊥ (λ n. ⊥) 0 result }
{
    let _ = root;
    if !file.dir {
        return Ok(false);
    }
    if file.rank < 40 {
        return Err(FileError::Damaged(file.leaf));
    }
    match has_names(alloc, on, file) {
        Ok(filled) => Ok(filled),
        Err(why) => Err(file_error(why)),
    }
}

/// The way to the file at a place below the root.
fn way_to<B: Blocks>(alloc: Global, on: &mut B, root: u32, at: &Place) -> Result<Way, FileError>
    requires may { MayLook (B.state on.old) root }
    ensures way { IfOk result (λ w. IsWay (B.state on.new) root at.now.trail w) }
    ensures short { OnOk result (length at.now.trail ≤ 65) }
    ensures aside { IfErr result (λ e. (view : View) (halted : Bool) → IsRefused view halted ⊥ e) }
    ensures looks { Looks (B.state on.old) (B.state on.new) × B.keeps on.old on.new }
    ensures cause { Refuses (faults_of (B.state on.old)) (faults_of (B.state on.new)) ⊥ (λ n. ⊥) 0 result }
{
    match at_place(alloc, on, root, at.trail.as_slice()) {
        Ok(Some(way)) => Ok(way),
        Ok(None) => Err(FileError::Gone),
        Err(why) => Err(file_error(why)),
    }
}

/// Whether a view is that of the active tree.
fn is_of_active(view: View) -> bool
    ensures { result ≡ is_active view }
{
    matches!(view, View::Active)
}

/// Whether limits allow that this file goes: the view is the active tree, it is no directory with names, and the system isn't halted.
fn may_remove<B: Blocks>(
    alloc: Global,
    on: &mut B,
    root: u32,
    view: View,
    file: &File,
    halted: bool,
) -> Result<(), FileError>
    requires may { MayLook (B.state on.old) root }
    requires holds { FileHolds (B.state on.old) file.now }
    ensures may { OnOk result ((is_active view ≡ true) × (halted ≡ false)) }
    ensures refused { IfErr result (IsRefused view halted (file.now.dir ≡ true)) }
    ensures looks { Looks (B.state on.old) (B.state on.new) × B.keeps on.old on.new }
    ensures cause { Refuses (faults_of (B.state on.old)) (faults_of (B.state on.new)) ⊥ (λ n. ⊥) 0 result }
{
    if !is_of_active(view) {
        return Err(FileError::ReadOnly);
    }
    match is_filled(alloc, on, root, file) {
        Ok(false) => {}
        Ok(true) => return Err(FileError::NotEmpty),
        Err(why) => return Err(why),
    }
    if halted {
        return Err(FileError::Halted);
    }
    Ok(())
}

/// The record of a directory after a user changed it at a moment. Refused: want of memory.
fn changed(alloc: Global, named: &Record, who: &Bytes, now: u32) -> Result<Record, FileError>
    ensures is { IfOk result (λ r. r ≡ touched who.now now named.now) }
    ensures memory { IfErr result (λ e. e ≡ Memory) }
{
    let (Ok(named), Ok(who)) = (copied(alloc, named), who.copy(alloc)) else {
        return Err(FileError::Memory);
    };
    Ok(touch(named, who, now))
}

/// The leaf to which the own record of the directory of a way's last step goes, where it is this one then; 0 for the root directory.
fn spare_of<B: Blocks>(
    alloc: Global,
    on: &mut B,
    way: &Way,
    own: &Record,
) -> Result<u32, BlockError>
    requires silent { (B.state on.old).tells → ⊥ }
    requires way { (root : ℕ) × ((trail : List ℕ) × IsWay (B.state on.old) root trail way.now) }
    requires own { RecordHolds own.now }
    ensures looks { Looks (B.state on.old) (B.state on.new) × B.keeps on.old on.new }
    ensures cause { IfErr result (Caused ⊥ (λ b. (B.state on.old).is_block b) (Rose (B.state on.old).faults (B.state on.new).faults) ⊥) }
{
    match way.steps.as_slice() {
        [.., above, step] => {
            let was = record_len(&step.dir.named);
            match spare_for(alloc, on, above, was, record_len(own)) {
                Ok(spare) => Ok(spare),
                Err(why) => Err(why),
            }
        }
        _ => Ok(0),
    }
}

/// Step `k` of a way.
fn step_of(way: &Way, k: usize) -> &Step
    requires within { k < length way.now.steps.items }
    ensures is { (d : Step) → result.now ≡ get_or way.now.steps.items k d }
{
    &way.steps[k]
}

/// Whether the record of directory `k` of a way is none of a root directory, though it is the first.
fn is_damaged(k: usize, named: &Record) -> bool
    ensures { result ≡ false → k ≡ 0 → RootRecordHolds named.now }
{
    if k == 0 {
        return !is_of_root(named);
    }
    false
}

/// What is found for a removal of the file at the end of a way below the root. A root block with another record than that of a root directory is
/// damaged.
fn found_at<B: Blocks>(
    alloc: Global,
    on: &mut B,
    root: u32,
    trail: &[u32],
    way: Way,
    who: &Bytes,
    now: u32,
) -> Result<Found, FileError>
    requires silent { (B.state on.old).tells → ⊥ }
    requires way { IsWay (B.state on.old) root trail.now way }
    requires below { 0 < length trail.now }
    requires who { IsUser who.now }
    ensures found { IfOk result (IsFound (B.state on.new) root trail.now who.now now) }
    ensures aside { IfErr result (λ e. (view : View) (halted : Bool) → IsRefused view halted ⊥ e) }
    ensures looks { Looks (B.state on.old) (B.state on.new) × B.keeps on.old on.new }
    ensures cause { Refuses (faults_of (B.state on.old)) (faults_of (B.state on.new)) ⊥ (λ n. ⊥) 0 result }
{
    let last = trail.len() - 1;
    let named = &step_of(&way, last).dir.named;
    if is_damaged(last, named) {
        return Err(FileError::Damaged(root));
    }
    let own = match changed(alloc, named, who, now) {
        Ok(own) => own,
        Err(why) => return Err(why),
    };
    match spare_of(alloc, on, &way, &own) {
        Ok(spare) => Ok(Found { way, own, spare }),
        Err(why) => Err(file_error(why)),
    }
}

/// Finds what a removal of the file at a place below the root needs. Refused in this order: the file is gone, the view isn't the active tree, it is a
/// directory with names, and the system is halted.
pub(crate) fn look_for_removal<B: Blocks>(
    alloc: Global,
    on: &mut B,
    root: u32,
    at: &Place,
    who: &Bytes,
    now: u32,
    halted: bool,
) -> Result<Found, FileError>
    requires may { MayLook (B.state on.old) root }
    requires below { IsBelowRoot at.now }
    requires who { IsUser who.now }
    ensures found { IfOk result (IsFound (B.state on.new) root at.now.trail who.now now) }
    ensures granted { OnOk result ((is_active at.now.view ≡ true) × (halted ≡ false)) }
    ensures short { OnOk result (length at.now.trail ≤ 65) }
    ensures refused { IfErr result (IsRefused at.now.view halted ((m : B) × (w : Way) × IsWay (B.state m) root at.now.trail w × (w.file.dir ≡ true))) }
    ensures looks { Looks (B.state on.old) (B.state on.new) × B.keeps on.old on.new }
    ensures cause { Refuses (faults_of (B.state on.old)) (faults_of (B.state on.new)) ⊥ (λ n. ⊥) 0 result }
{
    let way = match way_to(alloc, on, root, at) {
        Ok(way) => way,
        Err(why) => return Err(why),
    };
    match may_remove(alloc, on, root, at.view, &way.file, halted) {
        Ok(()) => {}
        Err(why) => return Err(why),
    }
    match found_at(alloc, on, root, at.trail.as_slice(), way, who, now) {
        Ok(found) => Ok(found),
        Err(why) => Err(why),
    }
}
