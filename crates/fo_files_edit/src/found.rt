//! What a change looks at before it reserves.
ghost use Rattle.std.specs.Prelude.{◌≡◌, ◌≢◌, ◌⊎◌, ◌+◌, ◌-◌, ◌^◌, ◌<◌, ◌≤◌, ℕ, Bool, true, false, not, length, None, IfSome, IfOk, IfErr, OnOk};
ghost use Rattle.fo_base.specs.Cause.{Rose};
ghost use Rattle.fo_ports.specs.Causes.{Caused};
ghost use Rattle.fo_ports.specs.State.{Looks};
ghost use Rattle.fo_world.specs.declared.error.FileError.TheVariants.{Memory};
ghost use Rattle.fo_world.specs.declared.place.View.{View};
ghost use Rattle.fo_world.specs.Answers.{Refuses};
ghost use Rattle.fo_world.specs.Limits.{IsUser};
ghost use Rattle.fo_world.specs.Step.{is_active};
ghost use Rattle.fo_files_into.specs.of_files_at.Held.{FileHolds};
ghost use Rattle.fo_files_into.specs.of_files_at.Way.{IsWay};
ghost use Rattle.fo_files_into.specs.of_files_look.Told.{faults_of, MayLook};
ghost use Rattle.fo_files_into.specs.of_files_along.Along.{IsBlocks};
ghost use Rattle.fo_files_edit.specs.Asks.{MayAsk, IsRefused, IsUnfound, WhyRefused, FoundSame, FoundOther, changes_nothing};
ghost use Rattle.fo_files_edit.specs.Fields.{with_edited};

use crate::asks::{bars_early, bars_late, is_renamed};
use crate::fields::edited;
use fo_base::Bytes;
use fo_dir_read::lookup;
use fo_files_into::files_along::spare_for;
use fo_files_into::files_at::{File, RECORDS_BELOW, Way, at_place, records_of};
use fo_files_into::files_look::file_error;
use fo_image::record_len;
use fo_ports::{BlockError, Blocks};
use fo_world::{Change, FileError, Place};
use std::alloc::Global;

/// What was found for a change: the way to the file, whose record is the new one already, the name that it has, and the leaf for the record where it
/// has to move.
#[derive(Debug, Drop)]
pub struct Found {
    pub way: Way,
    pub name: Bytes,
    pub spare: u32,
}

/// The way to the file at a place.
fn way_at<B: Blocks>(alloc: Global, on: &mut B, root: u32, at: &Place) -> Result<Way, FileError>
    requires may { MayLook (B.state on.old) root }
    ensures way { IfOk result (IsWay (B.state on.new) root at.now.trail) }
    ensures short { OnOk result (length at.now.trail ≤ 65) }
    ensures unfound { IfErr result IsUnfound }
    ensures looks { Looks (B.state on.old) (B.state on.new) × B.keeps on.old on.new }
    ensures cause { Refuses (faults_of (B.state on.old)) (faults_of (B.state on.new)) ⊥ (λ n. ⊥) 0 result }
{
    match at_place(alloc, on, root, at.trail.as_slice()) {
        Ok(Some(way)) => Ok(way),
        Ok(None) => Err(FileError::Gone),
        Err(why) => Err(file_error(why)),
    }
}

/// Whether a directory has a record of this name.
fn has_name<B: Blocks>(
    alloc: Global,
    on: &mut B,
    dir: &File,
    name: &[u8],
) -> Result<bool, BlockError>
    requires silent { (B.state on.old).tells → ⊥ }
    requires holds { FileHolds (B.state on.old) dir.now }
    requires high { 40 ≤ dir.now.rank }
    ensures looks { Looks (B.state on.old) (B.state on.new) × B.keeps on.old on.new }
    ensures cause { IfErr result (Caused ⊥ (λ b. (B.state on.old).is_block b) (Rose (B.state on.old).faults (B.state on.new).faults) ⊥) }
{
    let mut records = match records_of(alloc, on, dir) {
        Ok(records) => records,
        Err(why) => return Err(why),
    };
    match lookup(alloc, &mut records, on, dir.rank - RECORDS_BELOW, name) {
        Ok(Some(_)) => Ok(true),
        Ok(None) => Ok(false),
        Err(why) => Err(why),
    }
}

/// Looks whether another file beside that at the end of a way has the name that is given, where one is.
fn name_is_free<B: Blocks>(
    alloc: Global,
    on: &mut B,
    root: u32,
    at: &Place,
    way: &Way,
    what: &Change,
) -> Result<(), FileError>
    requires silent { (B.state on.old).tells → ⊥ }
    requires way { IsWay (B.state on.old) root at.now.trail way.now }
    ensures refused { IfErr result (λ e. (view : View) (halted : Bool) → is_active view ≡ true → IsRefused view what.now halted way.now.file.dir way.now.file.named.name e) }
    ensures looks { Looks (B.state on.old) (B.state on.new) × B.keeps on.old on.new }
    ensures cause { Refuses (faults_of (B.state on.old)) (faults_of (B.state on.new)) ⊥ (λ n. ⊥) 0 result }
{
    let _ = root;
    let _ = at;
    let Some(name) = &what.name else {
        return Ok(());
    };
    if name.as_slice() == way.file.named.name.as_slice() {
        return Ok(());
    }
    let depth = way.steps.len();
    if depth == 0 {
        return Ok(());
    }
    let step = &way.steps[depth - 1];
    match has_name(alloc, on, &step.dir, name.as_slice()) {
        Ok(true) => Err(FileError::Exists),
        Ok(false) => Ok(()),
        Err(why) => Err(file_error(why)),
    }
}

/// Looks whether a change of the file at the end of a way is refused by what the tree has, or by limits, and whether it changes anything.
fn sought<B: Blocks>(
    alloc: Global,
    on: &mut B,
    root: u32,
    at: &Place,
    way: &Way,
    what: &Change,
    halted: bool,
) -> Result<bool, FileError>
    requires silent { (B.state on.old).tells → ⊥ }
    requires way { IsWay (B.state on.old) root at.now.trail way.now }
    requires asks { MayAsk at.now what.now }
    ensures changes { IfOk result (λ does. does ≡ not (changes_nothing what.now way.now.file.named.name way.now.file.dir)) }
    ensures granted { OnOk result ((is_active at.now.view ≡ true) × IfSome what.now.length (λ n. n ≤ 2 ^ 40)) }
    ensures awake { IfOk result (λ does. does ≡ true → halted ≡ false) }
    ensures refused { IfErr result (IsRefused at.now.view what.now halted way.now.file.dir way.now.file.named.name) }
    ensures looks { Looks (B.state on.old) (B.state on.new) × B.keeps on.old on.new }
    ensures cause { Refuses (faults_of (B.state on.old)) (faults_of (B.state on.new)) ⊥ (λ n. ⊥) 0 result }
{
    match bars_early(at.view, what, way.file.dir) {
        Ok(()) => {}
        Err(why) => return Err(why),
    }
    match name_is_free(alloc, on, root, at, way, what) {
        Ok(()) => {}
        Err(why) => return Err(why),
    }
    match bars_late(what, way.file.named.name.as_slice(), way.file.dir, halted) {
        Ok(does) => Ok(does),
        Err(why) => Err(why),
    }
}

/// The way to a file whose record is the one after all that is given. Refused: want of memory.
fn with_edits(
    alloc: Global,
    way: Way,
    what: &Change,
    who: &Bytes,
    now: u32,
) -> Result<Way, FileError>
    ensures is { IfOk result (λ w. (w.steps ≡ way.steps) × (w.file ≡ with_edited what.now who.now now way.file)) }
    ensures memory { IfErr result (λ e. e ≡ Memory) }
{
    let Way { steps, file } = way;
    let File {
        named,
        dir,
        first,
        second,
        leaf,
        rank,
    } = file;
    match edited(alloc, named, what, dir, who, now) {
        Ok(named) => Ok(Way {
            steps,
            file: File {
                named,
                dir,
                first,
                second,
                leaf,
                rank,
            },
        }),
        Err(why) => Err(why),
    }
}

/// The leaf to which the record of the file at the end of a way goes that took as many bytes as this before; of the root directory's none is asked.
fn spare_of<B: Blocks>(
    alloc: Global,
    on: &mut B,
    root: u32,
    at: &Place,
    way: &Way,
    was: usize,
) -> Result<u32, BlockError>
    requires silent { (B.state on.old).tells → ⊥ }
    requires way { IsWay (B.state on.old) root at.now.trail way.now }
    ensures looks { Looks (B.state on.old) (B.state on.new) × B.keeps on.old on.new }
    ensures cause { IfErr result (Caused ⊥ (λ b. (B.state on.old).is_block b) (Rose (B.state on.old).faults (B.state on.new).faults) ⊥) }
{
    let _ = root;
    let _ = at;
    let depth = way.steps.len();
    if depth == 0 {
        return Ok(0);
    }
    let len = record_len(&way.file.named);
    let step = &way.steps[depth - 1];
    match spare_for(alloc, on, step, was, len) {
        Ok(spare) => Ok(spare),
        Err(why) => Err(why),
    }
}

/// What was found for a change, where the way to the file, with its new record, and the name that it has are at hand.
fn with_spare<B: Blocks>(
    alloc: Global,
    on: &mut B,
    root: u32,
    at: &Place,
    way: Way,
    name: Bytes,
    was: usize,
) -> Result<Found, FileError>
    requires silent { (B.state on.old).tells → ⊥ }
    requires way { IsWay (B.state on.old) root at.now.trail way }
    ensures is { IfOk result (λ f. (f.way ≡ way) × (f.name ≡ name)) }
    ensures blocks { IfErr result IsBlocks }
    ensures looks { Looks (B.state on.old) (B.state on.new) × B.keeps on.old on.new }
    ensures cause { Refuses (faults_of (B.state on.old)) (faults_of (B.state on.new)) ⊥ (λ n. ⊥) 0 result }
{
    match spare_of(alloc, on, root, at, &way, was) {
        Ok(spare) => Ok(Found { way, name, spare }),
        Err(why) => Err(file_error(why)),
    }
}

/// What was found for a change of the file at the end of a way, which is granted.
fn ready_way<B: Blocks>(
    alloc: Global,
    on: &mut B,
    root: u32,
    at: &Place,
    way: Way,
    what: &Change,
    who: &Bytes,
    now: u32,
) -> Result<Found, FileError>
    requires silent { (B.state on.old).tells → ⊥ }
    requires way { IsWay (B.state on.old) root at.now.trail way }
    requires asks { MayAsk at.now what.now }
    requires who { IsUser who.now }
    ensures way { IfOk result (λ f. IsWay (B.state on.new) root at.now.trail f.way) }
    ensures is { IfOk result (λ f. (f.way.steps ≡ way.steps) × (f.way.file ≡ with_edited what.now who.now now way.file) × (f.name ≡ way.file.named.name)) }
    ensures blocks { IfErr result IsBlocks }
    ensures looks { Looks (B.state on.old) (B.state on.new) × B.keeps on.old on.new }
    ensures cause { Refuses (faults_of (B.state on.old)) (faults_of (B.state on.new)) ⊥ (λ n. ⊥) 0 result }
{
    let was = record_len(&way.file.named);
    let Ok(name) = way.file.named.name.copy(alloc) else {
        return Err(FileError::Memory);
    };
    match with_edits(alloc, way, what, who, now) {
        Ok(new) => match with_spare(alloc, on, root, at, new, name, was) {
            Ok(found) => Ok(found),
            Err(why) => Err(why),
        },
        Err(_) => Err(FileError::Memory),
    }
}

/// What is found for a change of the file at a place; None where it changes nothing.
pub fn found_at<B: Blocks>(
    alloc: Global,
    on: &mut B,
    root: u32,
    at: &Place,
    what: &Change,
    who: &Bytes,
    now: u32,
    halted: bool,
) -> Result<Option<Found>, FileError>
    requires may { MayLook (B.state on.old) root }
    requires asks { MayAsk at.now what.now }
    requires who { IsUser who.now }
    ensures same { IfOk result (λ f. f ≡ None → FoundSame (B.state on.new) root at.now what.now) }
    ensures other { IfOk result (λ f. IfSome f (λ f. FoundOther (B.state on.new) root at.now what.now halted who.now now f.way f.name)) }
    ensures short { OnOk result (length at.now.trail ≤ 65) }
    ensures refused { IfErr result (WhyRefused B B.state root at.now what.now halted) }
    ensures looks { Looks (B.state on.old) (B.state on.new) × B.keeps on.old on.new }
    ensures cause { Refuses (faults_of (B.state on.old)) (faults_of (B.state on.new)) ⊥ (λ n. ⊥) 0 result }
{
    match way_at(alloc, on, root, at) {
        Ok(way) => match sought(alloc, on, root, at, &way, what, halted) {
            Ok(true) => match ready_way(alloc, on, root, at, way, what, who, now) {
                Ok(found) => Ok(Some(found)),
                Err(why) => Err(why),
            },
            Ok(false) => Ok(None),
            Err(why) => Err(why),
        },
        Err(why) => Err(why),
    }
}
