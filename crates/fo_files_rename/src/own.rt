//! The own record of the directory of a file that gets a new name.
ghost use Rattle.std.specs.Prelude.{◌≡◌, ◌⊎◌, ◌<◌, ◌≤◌, ℕ, length, IfOk, IfErr};
ghost use Rattle.fo_base.specs.Cause.{Rose};
ghost use Rattle.fo_image.specs.Record.{RecordHolds};
ghost use Rattle.fo_ports.specs.Causes.{Caused};
ghost use Rattle.fo_ports.specs.State.{Looks};
ghost use Rattle.fo_world.specs.declared.error.FileError.TheVariants.{Memory};
ghost use Rattle.fo_world.specs.Answers.{Refuses};
ghost use Rattle.fo_world.specs.Limits.{IsUser};
ghost use Rattle.fo_files_edit.specs.of_files_at.Way.{IsWay};
ghost use Rattle.fo_files_edit.specs.of_files_look.Told.{faults_of};
ghost use Rattle.fo_files_edit.specs.of_files_along.Along.{IsBlocks, touched};
ghost use Rattle.fo_files_edit.specs.Edit.{as_root};
ghost use Rattle.fo_files_rename.specs.Rename.{IsOwnOf};

use fo_base::Bytes;
use fo_files_edit::files_along::{spare_for, touch};
use fo_files_edit::files_at::Way;
use fo_files_edit::files_look::file_error;
use fo_files_edit::root_record;
use fo_files_own::copied;
use fo_files_spot::stands_alone;
use fo_image::{Record, record_len};
use fo_ports::{BlockError, Blocks};
use fo_world::FileError;
use std::alloc::Global;

/// The own record of a directory that changes, the leaf to which it goes where it outgrows its own (of the root directory no leaf is asked), and whether
/// a new name stands alone in the leaf that has the file's record.
#[derive(Debug, Drop)]
pub(crate) struct Own {
    pub(crate) named: Record,
    pub(crate) spare: u32,
    pub(crate) alone: bool,
}

/// A record after somebody changed a name in its directory at a moment. Refused: want of memory.
fn touched_by(alloc: Global, named: Record, who: &Bytes, now: u32) -> Result<Record, FileError>
    ensures is { IfOk result (λ r. r ≡ touched who.now now named) }
    ensures memory { IfErr result (λ e. e ≡ Memory) }
{
    match who.copy(alloc) {
        Ok(who) => Ok(touch(named, who, now)),
        Err(_) => Err(FileError::Memory),
    }
}

/// That of the root directory, as a root block has it. Refused: want of memory.
fn root_touched(alloc: Global, named: &Record, who: &Bytes, now: u32) -> Result<Record, FileError>
    ensures is { IfOk result (λ r. r ≡ touched who.now now (as_root named.now)) }
    ensures memory { IfErr result (λ e. e ≡ Memory) }
{
    match root_record(alloc, named) {
        Ok(named) => touched_by(alloc, named, who, now),
        Err(_) => Err(FileError::Memory),
    }
}

/// That of another directory. Refused: want of memory.
fn copy_touched(alloc: Global, named: &Record, who: &Bytes, now: u32) -> Result<Record, FileError>
    ensures is { IfOk result (λ r. r ≡ touched who.now now named.now) }
    ensures memory { IfErr result (λ e. e ≡ Memory) }
{
    match copied(alloc, named) {
        Ok(named) => touched_by(alloc, named, who, now),
        Err(_) => Err(FileError::Memory),
    }
}

/// That of the directory of the last step of a way. Refused: want of memory.
fn own_record(alloc: Global, way: &Way, who: &Bytes, now: u32) -> Result<Record, FileError>
    requires some { 0 < length way.now.steps.items }
    ensures is { IfOk result (IsOwnOf way.now.steps.items who.now now) }
    ensures memory { IfErr result (λ e. e ≡ Memory) }
{
    let depth = way.steps.len();
    let step = &way.steps[depth - 1];
    if depth == 1 {
        return match root_touched(alloc, &step.dir.named, who, now) {
            Ok(named) => Ok(named),
            Err(why) => Err(why),
        };
    }
    match copy_touched(alloc, &step.dir.named, who, now) {
        Ok(named) => Ok(named),
        Err(why) => Err(why),
    }
}

/// The leaf to which that record goes.
fn own_spare<B: Blocks>(
    alloc: Global,
    on: &mut B,
    root: u32,
    trail: &[u32],
    way: &Way,
    named: &Record,
) -> Result<u32, BlockError>
    requires silent { (B.state on.old).tells → ⊥ }
    requires way { IsWay (B.state on.old) root trail.now way.now }
    requires holds { 1 < length way.now.steps.items → RecordHolds named.now }
    ensures looks { Looks (B.state on.old) (B.state on.new) × B.keeps on.old on.new }
    ensures cause { IfErr result (Caused ⊥ (λ b. (B.state on.old).is_block b) (Rose (B.state on.old).faults (B.state on.new).faults) ⊥) }
{
    let _ = root;
    let _ = trail;
    let depth = way.steps.len();
    if depth < 2 {
        return Ok(0);
    }
    let dir = &way.steps[depth - 1];
    let above = &way.steps[depth - 2];
    let was = record_len(&dir.dir.named);
    let len = record_len(named);
    match spare_for(alloc, on, above, was, len) {
        Ok(spare) => Ok(spare),
        Err(why) => Err(why),
    }
}

/// Whether a new name of the file at the end of a way stands alone in the leaf that has the file's record.
fn is_alone<B: Blocks>(
    alloc: Global,
    on: &mut B,
    root: u32,
    trail: &[u32],
    way: &Way,
) -> Result<bool, BlockError>
    requires silent { (B.state on.old).tells → ⊥ }
    requires way { IsWay (B.state on.old) root trail.now way.now }
    requires some { 0 < length way.now.steps.items }
    ensures looks { Looks (B.state on.old) (B.state on.new) × B.keeps on.old on.new }
    ensures cause { IfErr result (Caused ⊥ (λ b. (B.state on.old).is_block b) (Rose (B.state on.old).faults (B.state on.new).faults) ⊥) }
{
    let _ = root;
    let _ = trail;
    let depth = way.steps.len();
    let step = &way.steps[depth - 1];
    match stands_alone(alloc, on, &step.dir, step.leaf) {
        Ok(alone) => Ok(alone),
        Err(why) => Err(why),
    }
}

/// The leaf to which the directory's own record goes, and whether a new name of the file stands alone.
fn places_for<B: Blocks>(
    alloc: Global,
    on: &mut B,
    root: u32,
    trail: &[u32],
    way: &Way,
    named: &Record,
) -> Result<(u32, bool), BlockError>
    requires silent { (B.state on.old).tells → ⊥ }
    requires way { IsWay (B.state on.old) root trail.now way.now }
    requires some { 0 < length way.now.steps.items }
    requires holds { 1 < length way.now.steps.items → RecordHolds named.now }
    ensures looks { Looks (B.state on.old) (B.state on.new) × B.keeps on.old on.new }
    ensures cause { IfErr result (Caused ⊥ (λ b. (B.state on.old).is_block b) (Rose (B.state on.old).faults (B.state on.new).faults) ⊥) }
{
    let spare = match own_spare(alloc, on, root, trail, way, named) {
        Ok(spare) => spare,
        Err(why) => return Err(why),
    };
    match is_alone(alloc, on, root, trail, way) {
        Ok(alone) => Ok((spare, alone)),
        Err(why) => Err(why),
    }
}

/// Looks at what changes of the directory of the file at the end of a way, below the root directory, where somebody gives the file another name, and
/// whether that name stands alone.
pub(crate) fn own_for<B: Blocks>(
    alloc: Global,
    on: &mut B,
    root: u32,
    trail: &[u32],
    way: &Way,
    who: &Bytes,
    now: u32,
) -> Result<Own, FileError>
    requires silent { (B.state on.old).tells → ⊥ }
    requires way { IsWay (B.state on.old) root trail.now way.now }
    requires some { 0 < length trail.now }
    requires who { IsUser who.now }
    ensures is { IfOk result (λ o. IsOwnOf way.now.steps.items who.now now o.named) }
    ensures blocks { IfErr result IsBlocks }
    ensures looks { Looks (B.state on.old) (B.state on.new) × B.keeps on.old on.new }
    ensures cause { Refuses (faults_of (B.state on.old)) (faults_of (B.state on.new)) ⊥ (λ n. ⊥) 0 result }
{
    match own_record(alloc, way, who, now) {
        Ok(named) => match places_for(alloc, on, root, trail, way, &named) {
            Ok((spare, alone)) => Ok(Own {
                named,
                spare,
                alone,
            }),
            Err(why) => Err(file_error(why)),
        },
        Err(_) => Err(FileError::Memory),
    }
}
