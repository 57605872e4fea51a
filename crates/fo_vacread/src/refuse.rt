//! Changes, each of which is refused.
ghost use Rattle.std.specs.Prelude.{◌≡◌, ℕ, List, false};
ghost use Rattle.fo_vac_walk.specs.Walk.{Holding, IsTold};
ghost use Rattle.fo_world.specs.Step as step;
ghost use Rattle.fo_world.specs.declared.place.View.TheVariants.{Archive};
ghost use Rattle.fo_vac_files.specs.Causes.{IsSaid};
ghost use Rattle.fo_vac_files.specs.Vac.{world_of};
ghost use Rattle.fo_vacread.specs.Refused.{HasRefusal, refused_by, refusal_of_dir};
ghost use Rattle.fo_world.specs.declared.place.Change.{Change};

use fo_disk::Disk;
use fo_vac_files::{Opened, kind_at};
use fo_world::{FileError, Place};
use std::alloc::Global;
use venti_store::Arena;

/// The refusal of a change of a directory or of a file; where it was not looked at, why.
fn refused_by(kind: Result<bool, FileError>, of_dir: FileError, of_file: FileError) -> FileError
    ensures { result ≡ refused_by of_dir of_file kind }
{
    match kind {
        Ok(true) => of_dir,
        Ok(false) => of_file,
        Err(why) => why,
    }
}

/// Why bytes are not written.
pub(crate) fn no_write<A: Disk>(
    alloc: Global,
    arena: &mut Arena<A>,
    opened: &Opened,
    at: &Place,
) -> FileError
    requires { at.now.view ≡ Archive opened.now.found.root.epoch }
    ensures held { (h : Holding) (largest offset : ℕ) (bytes who : List ℕ) (now : ℕ) → IsTold h arena.old.shelf (A.state arena.old.device)
        → IsSaid h opened.now (step.write false largest (world_of h opened.now) at.now offset bytes who now) result }
    ensures shelf { arena.new.shelf ≡ arena.old.shelf }
    ensures kept { A.state arena.new.device ≡ A.state arena.old.device }
    ensures cause { HasRefusal (A.faults arena.old.device) (A.faults arena.new.device) result }
{
    let kind = kind_at(alloc, arena, opened, at);
    refused_by(kind, FileError::IsDir, FileError::ReadOnly)
}

/// Why no file is made.
pub(crate) fn no_create<A: Disk>(
    alloc: Global,
    arena: &mut Arena<A>,
    opened: &Opened,
    at: &Place,
) -> FileError
    requires { at.now.view ≡ Archive opened.now.found.root.epoch }
    ensures held { (h : Holding) (name : List ℕ) (mode : ℕ) (who uid gid : List ℕ) (now : ℕ) → IsTold h arena.old.shelf (A.state arena.old.device)
        → IsSaid h opened.now (step.create false (world_of h opened.now) at.now name mode who uid gid now) result }
    ensures shelf { arena.new.shelf ≡ arena.old.shelf }
    ensures kept { A.state arena.new.device ≡ A.state arena.old.device }
    ensures cause { HasRefusal (A.faults arena.old.device) (A.faults arena.new.device) result }
{
    let kind = kind_at(alloc, arena, opened, at);
    refused_by(kind, FileError::ReadOnly, FileError::NotDir)
}

/// Why no file is removed.
pub(crate) fn no_remove<A: Disk>(
    alloc: Global,
    arena: &mut Arena<A>,
    opened: &Opened,
    at: &Place,
) -> FileError
    requires { at.now.view ≡ Archive opened.now.found.root.epoch }
    ensures held { (h : Holding) (who : List ℕ) (now : ℕ) → IsTold h arena.old.shelf (A.state arena.old.device)
        → IsSaid h opened.now (step.remove false (world_of h opened.now) at.now who now) result }
    ensures shelf { arena.new.shelf ≡ arena.old.shelf }
    ensures kept { A.state arena.new.device ≡ A.state arena.old.device }
    ensures cause { HasRefusal (A.faults arena.old.device) (A.faults arena.new.device) result }
{
    let kind = kind_at(alloc, arena, opened, at);
    refused_by(kind, FileError::ReadOnly, FileError::ReadOnly)
}

/// The refusal of a change of a directory that is given this length.
fn of_dir(len: Option<u64>) -> FileError
    ensures { result ≡ refusal_of_dir len }
{
    match len {
        None => FileError::ReadOnly,
        Some(given) => {
            if 0 < given {
                FileError::IsDir
            } else {
                FileError::ReadOnly
            }
        }
    }
}

/// Why nothing is changed, where this length is given.
pub(crate) fn no_change<A: Disk>(
    alloc: Global,
    arena: &mut Arena<A>,
    opened: &Opened,
    at: &Place,
    len: Option<u64>,
) -> FileError
    requires { at.now.view ≡ Archive opened.now.found.root.epoch }
    ensures held { (h : Holding) (largest : ℕ) (what : Change) (who : List ℕ) (now : ℕ) → IsTold h arena.old.shelf (A.state arena.old.device) → what.length ≡ len
        → IsSaid h opened.now (step.change false largest (world_of h opened.now) at.now what who now) result }
    ensures shelf { arena.new.shelf ≡ arena.old.shelf }
    ensures kept { A.state arena.new.device ≡ A.state arena.old.device }
    ensures cause { HasRefusal (A.faults arena.old.device) (A.faults arena.new.device) result }
{
    let kind = kind_at(alloc, arena, opened, at);
    refused_by(kind, of_dir(len), FileError::ReadOnly)
}
