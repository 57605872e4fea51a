//! Calls that look at the files of an archive.
//!
//! `held`: whatever the arena holds, where its device tells, what the file step says of the world with the archive is answered, or why it
//! was not read. The other clauses are so over any device.
ghost use Rattle.std.specs.Prelude.{◌≡◌, ◌≤◌, ℕ, List, Option, false, length, take, drop, IfOk, IfSome, MatchResult, Ok};
ghost use Rattle.std.specs.Option.{option_copied};
ghost use Rattle.fo_image.specs.Record.{RecordHolds};
ghost use Rattle.fo_crash.specs.Images.{Link};
ghost use Rattle.fo_good.specs.Reading.{source_in};
ghost use Rattle.fo_vac_open.specs.Tree.{no_image};
ghost use Rattle.fo_vac_walk.specs.Walk.{Holding, IsTold, blocks_of};
ghost use Rattle.fo_vac_dir.specs.Choice.{test_of};
ghost use Rattle.fo_world.specs.Fits.{InfoFits};
ghost use Rattle.fo_world.specs.Step as step;
ghost use Rattle.fo_world.specs.Step.{HasEpoch};
ghost use Rattle.fo_world.specs.declared.place.View.TheVariants.{Archive};
ghost use Rattle.fo_world.specs.declared.error.FileError.TheVariants as error;
ghost use Rattle.fo_vac_files.specs.declared.reach.Inside.TheVariants as inside;
ghost use Rattle.fo_vac_files.specs.declared.opened.Opened.{Opened};
ghost use Rattle.fo_vac_files.specs.Causes.{HasLookCauses, IsLoss, IsSaid, Tells};
ghost use Rattle.fo_vac_files.specs.Stands.{SourceIs};
ghost use Rattle.fo_vac_files.specs.Vac.{world_of};
ghost use Rattle.fo_vac_files.specs.Told.{length_in, is_dir_in, told_of, told_next, Reaches, KindIs, IsOwn, next_in};

use crate::opened::Opened;
use crate::reach::{Inside, Reached, follow, pick, refusal};
use fo_base::Bytes;
use fo_disk::Disk;
use fo_image::Record;
use fo_vac_dir::{Folder, Wanted};
use fo_vac_walk::Source;
use fo_world::{FileError, Info, Place};
use std::alloc::{AllocError, Global};
use venti_store::Arena;

/// A copy of a record.
fn copy_of(alloc: Global, named: &Record) -> Result<Record, AllocError>
    ensures { IfOk result (λ r. r ≡ named.now) }
{
    Ok(Record {
        name: named.name.copy(alloc)?,
        number: named.number,
        slot: named.slot,
        generation: named.generation,
        vers: named.vers,
        mode: named.mode,
        atime: named.atime,
        mtime: named.mtime,
        uid: named.uid.copy(alloc)?,
        gid: named.gid.copy(alloc)?,
        muid: named.muid.copy(alloc)?,
    })
}

/// The root directory.
fn top_of(alloc: Global, opened: &Opened) -> Result<Reached, AllocError>
    ensures { IfOk result (IsOwn opened.now) }
{
    let named = copy_of(alloc, &opened.found.top.own)?;
    Ok(Reached {
        named,
        inside: Inside::Dir(opened.root),
    })
}

/// A file's length; a directory has none.
fn length_of(what: &Inside) -> u64
    ensures { result ≡ length_in what.now }
{
    match what {
        Inside::File(bytes) => bytes.size(),
        Inside::Dir(_) => 0,
    }
}

/// Whether it is a directory.
fn is_dir(what: &Inside) -> bool
    ensures { result ≡ is_dir_in what.now }
{
    match what {
        Inside::File(_) => false,
        Inside::Dir(_) => true,
    }
}

/// The directory that was reached.
fn as_dir(what: Inside) -> Result<Folder, FileError>
    ensures { MatchResult result (λ folder. what ≡ inside.Dir folder) (λ e. (is_dir_in what ≡ false) × (e ≡ error.NotDir)) }
{
    match what {
        Inside::Dir(folder) => Ok(folder),
        Inside::File(_) => Err(FileError::NotDir),
    }
}

/// What is told of a file that was reached at a place.
fn told(place: Place, file: Reached) -> Info
    requires epoch { HasEpoch place.view }
    requires holds { RecordHolds file.named }
    ensures told { result ≡ told_of place file }
    ensures fits { InfoFits result }
{
    let Reached { named, inside } = file;
    let len = length_of(&inside);
    Info {
        path: place.view.path(named.number),
        name: named.name,
        vers: named.vers,
        mode: named.mode,
        atime: named.atime,
        mtime: named.mtime,
        length: len,
        uid: named.uid,
        gid: named.gid,
        muid: named.muid,
        place,
    }
}

/// The file at a place.
fn reach_at<A: Disk>(
    alloc: Global,
    arena: &mut Arena<A>,
    opened: &Opened,
    at: &Place,
) -> Result<Reached, FileError>
    requires { at.now.view ≡ Archive opened.now.found.root.epoch }
    ensures held { (h : Holding) → IsTold h arena.old.shelf (A.state arena.old.device)
        → Reaches h opened.now (step.reached false (world_of h opened.now) at.now) result }
    ensures holds { IfOk result (λ f. RecordHolds f.named) }
    ensures shelf { arena.new.shelf ≡ arena.old.shelf }
    ensures kept { A.state arena.new.device ≡ A.state arena.old.device }
    ensures cause { HasLookCauses (A.faults arena.old.device) (A.faults arena.new.device) result }
{
    let top = top_of(alloc, opened)?;
    follow(alloc, arena, top, at.trail.as_slice())
}

/// What is told of the file at a place.
pub fn info_at<A: Disk>(
    alloc: Global,
    arena: &mut Arena<A>,
    opened: &Opened,
    at: &Place,
) -> Result<Info, FileError>
    requires { at.now.view ≡ Archive opened.now.found.root.epoch }
    ensures held { (h : Holding) → IsTold h arena.old.shelf (A.state arena.old.device)
        → Tells h opened.now (step.info false (world_of h opened.now) at.now) (world_of h opened.now) result }
    ensures fits { IfOk result InfoFits }
    ensures shelf { arena.new.shelf ≡ arena.old.shelf }
    ensures kept { A.state arena.new.device ≡ A.state arena.old.device }
    ensures cause { HasLookCauses (A.faults arena.old.device) (A.faults arena.new.device) result }
{
    let file = reach_at(alloc, arena, opened, at)?;
    let place = at.copy(alloc)?;
    Ok(told(place, file))
}

/// What is told of a file directly below a place, where there is one.
fn told_below(alloc: Global, at: &Place, found: Option<Reached>) -> Result<Option<Info>, AllocError>
    requires epoch { HasEpoch at.now.view }
    requires holds { IfSome found (λ f. RecordHolds f.named) }
    ensures told { IfOk result (λ told. told ≡ told_next at.now found) }
    ensures fits { IfOk result (λ told. IfSome told InfoFits) }
{
    match found {
        Some(file) => {
            let place = at.below(alloc, file.named.number)?;
            Ok(Some(told(place, file)))
        }
        None => Ok(None),
    }
}

/// What is told of the file that is wanted in a directory, where there is one.
fn pick_at<A: Disk>(
    alloc: Global,
    arena: &mut Arena<A>,
    opened: &Opened,
    at: &Place,
    wanted: &Wanted,
) -> Result<Option<Info>, FileError>
    requires { at.now.view ≡ Archive opened.now.found.root.epoch }
    ensures held { (h : Holding) → IsTold h arena.old.shelf (A.state arena.old.device)
        → Tells h opened.now (next_in (test_of wanted.now) (world_of h opened.now) at.now) (world_of h opened.now) result }
    ensures fits { IfOk result (λ told. IfSome told InfoFits) }
    ensures shelf { arena.new.shelf ≡ arena.old.shelf }
    ensures kept { A.state arena.new.device ≡ A.state arena.old.device }
    ensures cause { HasLookCauses (A.faults arena.old.device) (A.faults arena.new.device) result }
{
    let file = reach_at(alloc, arena, opened, at)?;
    let folder = as_dir(file.inside)?;
    let found = pick(alloc, arena, folder, wanted)?;
    let told = told_below(alloc, at, found)?;
    Ok(told)
}

/// What is told of the file with this name in a directory.
pub fn find_at<A: Disk>(
    alloc: Global,
    arena: &mut Arena<A>,
    opened: &Opened,
    at: &Place,
    name: &[u8],
) -> Result<Info, FileError>
    requires { at.now.view ≡ Archive opened.now.found.root.epoch }
    ensures held { (h : Holding) → IsTold h arena.old.shelf (A.state arena.old.device)
        → Tells h opened.now (step.find false (world_of h opened.now) at.now name.now) (world_of h opened.now) result }
    ensures fits { IfOk result InfoFits }
    ensures shelf { arena.new.shelf ≡ arena.old.shelf }
    ensures kept { A.state arena.new.device ≡ A.state arena.old.device }
    ensures cause { HasLookCauses (A.faults arena.old.device) (A.faults arena.new.device) result }
{
    let name = Bytes::copy_of(alloc, name)?;
    let wanted = Wanted::Name(name);
    let told = pick_at(alloc, arena, opened, at, &wanted)?;
    match told {
        Some(told) => Ok(told),
        None => Err(FileError::Absent),
    }
}

/// A copy of a name, where one is given.
fn copy_given(alloc: Global, name: Option<&Bytes>) -> Result<Option<Bytes>, AllocError>
    ensures { IfOk result (λ n. n ≡ option_copied name.entry) }
{
    match name {
        None => Ok(None),
        Some(name) => Ok(Some(name.copy(alloc)?)),
    }
}

/// What is told of the file with the least name in a directory, above the one given.
pub fn next_at<A: Disk>(
    alloc: Global,
    arena: &mut Arena<A>,
    opened: &Opened,
    at: &Place,
    after: Option<&Bytes>,
) -> Result<Option<Info>, FileError>
    requires { at.now.view ≡ Archive opened.now.found.root.epoch }
    ensures held { (h : Holding) → IsTold h arena.old.shelf (A.state arena.old.device)
        → Tells h opened.now (step.next_name false (world_of h opened.now) at.now (option_copied after.entry)) (world_of h opened.now) result }
    ensures fits { IfOk result (λ told. IfSome told InfoFits) }
    ensures shelf { arena.new.shelf ≡ arena.old.shelf }
    ensures kept { A.state arena.new.device ≡ A.state arena.old.device }
    ensures cause { HasLookCauses (A.faults arena.old.device) (A.faults arena.new.device) result }
{
    let after = copy_given(alloc, after)?;
    let wanted = Wanted::Next(after);
    pick_at(alloc, arena, opened, at, &wanted)
}

/// What is told of the directory above a place.
pub fn parent_at<A: Disk>(
    alloc: Global,
    arena: &mut Arena<A>,
    opened: &Opened,
    at: &Place,
) -> Result<Info, FileError>
    requires { at.now.view ≡ Archive opened.now.found.root.epoch }
    ensures held { (h : Holding) → IsTold h arena.old.shelf (A.state arena.old.device)
        → Tells h opened.now (step.parent false (world_of h opened.now) at.now) (world_of h opened.now) result }
    ensures fits { IfOk result InfoFits }
    ensures shelf { arena.new.shelf ≡ arena.old.shelf }
    ensures kept { A.state arena.new.device ≡ A.state arena.old.device }
    ensures cause { HasLookCauses (A.faults arena.old.device) (A.faults arena.new.device) result }
{
    let _file = reach_at(alloc, arena, opened, at)?;
    let trail = at.trail.front(alloc)?;
    let above = Place {
        view: at.view,
        trail,
    };
    info_at(alloc, arena, opened, &above)
}

/// Puts the bytes of a source from an offset on into the front of `into`.
fn read_of<A: Disk>(
    alloc: Global,
    arena: &mut Arena<A>,
    source: Source,
    offset: u64,
    into: &mut [u8],
) -> Result<usize, FileError>
    ensures held { (h : Holding) (o : Opened) (w : Link) → IsTold h arena.old.shelf (A.state arena.old.device) → SourceIs h o w source
        → MatchResult result (λ n. take n into.new ≡ take (length into.old) (drop offset (source_in (blocks_of h) no_image w))) (IsLoss h o) }
    ensures front { IfOk result (λ n. (n ≤ length into.old) × (drop n into.new ≡ drop n into.old)) }
    ensures shelf { arena.new.shelf ≡ arena.old.shelf }
    ensures kept { A.state arena.new.device ≡ A.state arena.old.device }
    ensures cause { HasLookCauses (A.faults arena.old.device) (A.faults arena.new.device) result }
{
    match source.read(alloc, arena, offset, into) {
        Ok(count) => Ok(count),
        Err(why) => Err(refusal(why)),
    }
}

/// Puts the bytes of a file from an offset on into the front of `into`, as many as exist and fit, and says how many.
pub fn read_at<A: Disk>(
    alloc: Global,
    arena: &mut Arena<A>,
    opened: &Opened,
    at: &Place,
    offset: u64,
    into: &mut [u8],
) -> Result<usize, FileError>
    requires { at.now.view ≡ Archive opened.now.found.root.epoch }
    ensures held { (h : Holding) → IsTold h arena.old.shelf (A.state arena.old.device)
        → let told = step.read false (world_of h opened.now) at.now offset (length into.old) in MatchResult result (λ n. told ≡ Ok (take n into.new, world_of h opened.now)) (IsSaid h opened.now told) }
    ensures front { IfOk result (λ n. (n ≤ length into.old) × (drop n into.new ≡ drop n into.old)) }
    ensures shelf { arena.new.shelf ≡ arena.old.shelf }
    ensures kept { A.state arena.new.device ≡ A.state arena.old.device }
    ensures cause { HasLookCauses (A.faults arena.old.device) (A.faults arena.new.device) result }
{
    let file = reach_at(alloc, arena, opened, at)?;
    match file.inside {
        Inside::File(source) => read_of(alloc, arena, source, offset, into),
        Inside::Dir(_) => Err(FileError::IsDir),
    }
}

/// Whether the file at a place is a directory.
pub fn kind_at<A: Disk>(
    alloc: Global,
    arena: &mut Arena<A>,
    opened: &Opened,
    at: &Place,
) -> Result<bool, FileError>
    requires { at.now.view ≡ Archive opened.now.found.root.epoch }
    ensures held { (h : Holding) → IsTold h arena.old.shelf (A.state arena.old.device) → KindIs h opened.now (step.reached false (world_of h opened.now) at.now) result }
    ensures shelf { arena.new.shelf ≡ arena.old.shelf }
    ensures kept { A.state arena.new.device ≡ A.state arena.old.device }
    ensures cause { HasLookCauses (A.faults arena.old.device) (A.faults arena.new.device) result }
{
    let file = reach_at(alloc, arena, opened, at)?;
    Ok(is_dir(&file.inside))
}
