//! What is told of files of the active tree.
ghost use Rattle.std.specs.Prelude.{◌≡◌, ◌-◌, ◌<◌, ◌≤◌, ℕ, true, false, length, drop, min, IfOk, IfErr, IfSome, MatchResult};
ghost use Rattle.std.specs.Option.{option_copied};
ghost use Rattle.fo_base.specs.Cause.{Rose};
ghost use Rattle.fo_image.specs.Record.{RecordHolds};
ghost use Rattle.fo_ports.specs.Causes.{Caused};
ghost use Rattle.fo_ports.specs.State.{Looks};
ghost use Rattle.fo_files_at.specs.of_tree_look.Source.{Over};
ghost use Rattle.fo_world.specs.declared.error.FileError.TheVariants.{Memory, NotDir, IsDir};
ghost use Rattle.fo_world.specs.Answers.{Refuses};
ghost use Rattle.fo_world.specs.Fits.{InfoFits};
ghost use Rattle.fo_world.specs.Step.{below};
ghost use Rattle.fo_world.specs.Tree.{comes_before, last};
ghost use Rattle.fo_files_at.specs.Held.{FileHolds};
ghost use Rattle.fo_files_at.specs.Way.{IsWay};
ghost use Rattle.fo_files_look.specs.Told as of;
ghost use Rattle.fo_files_look.specs.Told.{faults_of, MayLook, IsTold, IsRead};

use fo_base::Bytes;
use fo_disk::DiskFault;
use fo_files_at::tree::Source;
use fo_files_at::{
    File, RECORDS_BELOW, Way, at_place, below, data_of, lookup, next, records_of, way_ends,
};
use fo_image::Record;
use fo_ports::{BlockError, Blocks, Bytes as _};
use fo_world::{FileError, Info, Place};
use std::alloc::Global;

/// The refusal of files for one of blocks.
pub fn file_error(why: BlockError) -> FileError
    ensures { result ≡ of.file_error why }
{
    match why {
        BlockError::Full => FileError::Full,
        BlockError::Damaged(at) => FileError::Damaged(at),
        BlockError::Fault(DiskFault::Read) => FileError::MainRead,
        BlockError::Fault(DiskFault::Write) => FileError::MainWrite,
        BlockError::Fault(DiskFault::Sync) => FileError::MainSync,
        BlockError::Arena(DiskFault::Read) => FileError::ArenaRead,
        BlockError::Arena(DiskFault::Write) => FileError::ArenaWrite,
        BlockError::Arena(DiskFault::Sync) => FileError::ArenaSync,
        BlockError::Memory => FileError::Memory,
    }
}

/// The length of a file; a directory has none.
fn length_of(file: &File) -> u64
    ensures { result ≡ of.length_of file.now }
{
    if file.dir { 0 } else { file.first.size }
}

/// What is told of a file, at its place.
fn told(place: Place, file: File) -> Info
    requires holds { RecordHolds file.named }
    ensures fits { InfoFits result }
    ensures is { result ≡ of.told_of place file }
{
    let length = length_of(&file);
    let named = file.named;
    Info {
        place,
        path: u64::from(named.number),
        name: named.name,
        vers: named.vers,
        mode: named.mode,
        atime: named.atime,
        mtime: named.mtime,
        length,
        uid: named.uid,
        gid: named.gid,
        muid: named.muid,
    }
}

/// The way to the file at a place.
fn way_to<B: Blocks>(alloc: Global, on: &mut B, root: u32, trail: &[u32]) -> Result<Way, FileError>
    requires may { MayLook (B.state on.old) root }
    ensures way { IfOk result (IsWay (B.state on.new) root trail.now) }
    ensures short { IfOk result (λ w. length trail.now ≤ 65) }
    ensures looks { Looks (B.state on.old) (B.state on.new) × B.keeps on.old on.new }
    ensures cause { Refuses (faults_of (B.state on.old)) (faults_of (B.state on.new)) ⊥ (λ n. ⊥) 0 result }
{
    match at_place(alloc, on, root, trail) {
        Ok(Some(way)) => Ok(way),
        Ok(None) => Err(FileError::Gone),
        Err(why) => Err(file_error(why)),
    }
}

/// The file at the end of a way along this trail.
fn end_of<B: Blocks>(on: &B, root: u32, trail: &[u32], way: Way) -> File
    requires way { IsWay (B.state on.now) root trail.now way }
    requires short { length trail.now ≤ 65 }
    ensures holds { FileHolds (B.state on.now) result }
    ensures high { 40 ≤ result.rank }
    ensures number { 0 < length trail.now → result.named.number ≡ last trail.now }
{
    let _ = trail;
    way_ends(on, &way, root);
    way.file
}

/// The file at a place.
fn reach<B: Blocks>(alloc: Global, on: &mut B, root: u32, trail: &[u32]) -> Result<File, FileError>
    requires may { MayLook (B.state on.old) root }
    ensures holds { IfOk result (λ f. FileHolds (B.state on.new) f) }
    ensures high { IfOk result (λ f. 40 ≤ f.rank) }
    ensures number { IfOk result (λ f. 0 < length trail.now → f.named.number ≡ last trail.now) }
    ensures looks { Looks (B.state on.old) (B.state on.new) × B.keeps on.old on.new }
    ensures cause { Refuses (faults_of (B.state on.old)) (faults_of (B.state on.new)) ⊥ (λ n. ⊥) 0 result }
{
    match way_to(alloc, on, root, trail) {
        Ok(way) => Ok(end_of(on, root, trail, way)),
        Err(why) => Err(why),
    }
}

/// What is told of a file at this place. Refused: want of memory.
fn told_at(alloc: Global, at: &Place, file: File) -> Result<Info, FileError>
    requires holds { RecordHolds file.named }
    ensures fits { IfOk result InfoFits }
    ensures is { IfOk result (λ i. i ≡ of.told_of at.now file) }
    ensures memory { IfErr result (λ e. e ≡ Memory) }
{
    match at.copy(alloc) {
        Ok(place) => Ok(told(place, file)),
        Err(_) => Err(FileError::Memory),
    }
}

/// What is told of the file at a place of the active tree.
pub fn info<B: Blocks>(alloc: Global, on: &mut B, root: u32, at: &Place) -> Result<Info, FileError>
    requires may { MayLook (B.state on.old) root }
    ensures fits { IfOk result InfoFits }
    ensures place { IfOk result (λ i. i.place ≡ at.now) }
    ensures path { IfOk result (λ i. 0 < length at.now.trail → i.path ≡ last at.now.trail) }
    ensures told { IfOk result (IsTold (B.state on.new) at.now) }
    ensures looks { Looks (B.state on.old) (B.state on.new) × B.keeps on.old on.new }
    ensures cause { Refuses (faults_of (B.state on.old)) (faults_of (B.state on.new)) ⊥ (λ n. ⊥) 0 result }
{
    match reach(alloc, on, root, at.trail.as_slice()) {
        Ok(file) => told_at(alloc, at, file),
        Err(why) => Err(why),
    }
}

/// The place above, of the root itself at the root. Refused: want of memory.
fn place_above(alloc: Global, at: &Place) -> Result<Place, FileError>
    ensures is { IfOk result (λ p. p ≡ of.above at.now) }
    ensures memory { IfErr result (λ e. e ≡ Memory) }
{
    match at.trail.front(alloc) {
        Ok(trail) => Ok(Place {
            view: at.view,
            trail,
        }),
        Err(_) => Err(FileError::Memory),
    }
}

/// What is told of the file at the end of a way to this place.
fn told_there<B: Blocks>(on: &B, root: u32, place: Place, way: Way) -> Info
    requires way { IsWay (B.state on.now) root place.trail way }
    ensures fits { InfoFits result }
    ensures path { 0 < length place.trail → result.path ≡ last place.trail }
    ensures told { IsTold (B.state on.now) place result }
{
    way_ends(on, &way, root);
    told(place, way.file)
}

/// What is told of the directory above a place, of the root itself at the root.
pub fn parent<B: Blocks>(
    alloc: Global,
    on: &mut B,
    root: u32,
    at: &Place,
) -> Result<Info, FileError>
    requires may { MayLook (B.state on.old) root }
    ensures fits { IfOk result InfoFits }
    ensures place { IfOk result (λ i. i.place ≡ of.above at.now) }
    ensures path { IfOk result (λ i. 0 < length (of.above at.now).trail → i.path ≡ last (of.above at.now).trail) }
    ensures told { IfOk result (IsTold (B.state on.new) (of.above at.now)) }
    ensures looks { Looks (B.state on.old) (B.state on.new) × B.keeps on.old on.new }
    ensures cause { Refuses (faults_of (B.state on.old)) (faults_of (B.state on.new)) ⊥ (λ n. ⊥) 0 result }
{
    let way = match way_to(alloc, on, root, at.trail.as_slice()) {
        Ok(way) => way,
        Err(why) => return Err(why),
    };
    match place_above(alloc, at) {
        Ok(place) => Ok(told_there(on, root, place, way.above(on))),
        Err(why) => Err(why),
    }
}

/// The file, where it is a directory.
fn as_dir(file: File) -> Result<File, FileError>
    ensures { MatchResult result (λ f. (f ≡ file) × (file.dir ≡ true)) (λ e. (e ≡ NotDir) × (file.dir ≡ false)) }
{
    if file.dir {
        Ok(file)
    } else {
        Err(FileError::NotDir)
    }
}

/// The directory at a place.
fn dir_at<B: Blocks>(alloc: Global, on: &mut B, root: u32, trail: &[u32]) -> Result<File, FileError>
    requires may { MayLook (B.state on.old) root }
    ensures holds { IfOk result (λ f. FileHolds (B.state on.new) f) }
    ensures high { IfOk result (λ f. 40 ≤ f.rank) }
    ensures dir { IfOk result (λ f. f.dir ≡ true) }
    ensures looks { Looks (B.state on.old) (B.state on.new) × B.keeps on.old on.new }
    ensures cause { Refuses (faults_of (B.state on.old)) (faults_of (B.state on.new)) ⊥ (λ n. ⊥) 0 result }
{
    match reach(alloc, on, root, trail) {
        Ok(file) => as_dir(file),
        Err(why) => Err(why),
    }
}

/// The record with this name in a directory, if it has one.
fn named_in<B: Blocks>(
    alloc: Global,
    on: &mut B,
    root: u32,
    dir: &File,
    name: &[u8],
) -> Result<Option<Record>, BlockError>
    requires may { MayLook (B.state on.old) root }
    requires holds { FileHolds (B.state on.old) dir.now }
    requires high { 40 ≤ dir.now.rank }
    ensures holds { IfOk result (λ found. IfSome found RecordHolds) }
    ensures named { IfOk result (λ found. IfSome found (λ r. r.name ≡ name.now)) }
    ensures looks { Looks (B.state on.old) (B.state on.new) × B.keeps on.old on.new }
    ensures cause { IfErr result (Caused ⊥ (λ b. (B.state on.old).is_block b) (Rose (B.state on.old).faults (B.state on.new).faults) ⊥) }
{
    let mut records = match records_of(alloc, on, dir) {
        Ok(records) => records,
        Err(why) => return Err(why),
    };
    match lookup(alloc, &mut records, on, dir.rank - RECORDS_BELOW, name) {
        Ok(Some(found)) => Ok(Some(found.record)),
        Ok(None) => Ok(None),
        Err(why) => Err(why),
    }
}

/// The record of the least name after this one in a directory, if it has one.
fn next_in<B: Blocks>(
    alloc: Global,
    on: &mut B,
    root: u32,
    dir: &File,
    after: &[u8],
) -> Result<Option<Record>, BlockError>
    requires may { MayLook (B.state on.old) root }
    requires holds { FileHolds (B.state on.old) dir.now }
    requires high { 40 ≤ dir.now.rank }
    ensures holds { IfOk result (λ found. IfSome found RecordHolds) }
    ensures later { IfOk result (λ found. IfSome found (λ r. comes_before after.now r.name ≡ true)) }
    ensures looks { Looks (B.state on.old) (B.state on.new) × B.keeps on.old on.new }
    ensures cause { IfErr result (Caused ⊥ (λ b. (B.state on.old).is_block b) (Rose (B.state on.old).faults (B.state on.new).faults) ⊥) }
{
    let mut records = match records_of(alloc, on, dir) {
        Ok(records) => records,
        Err(why) => return Err(why),
    };
    match next(alloc, &mut records, on, dir.rank - RECORDS_BELOW, after) {
        Ok(found) => Ok(found),
        Err(why) => Err(why),
    }
}

/// What is told of a file directly below a place. Refused: want of memory.
fn told_below(alloc: Global, at: &Place, file: File) -> Result<Info, FileError>
    requires holds { RecordHolds file.named }
    ensures fits { IfOk result InfoFits }
    ensures is { IfOk result (λ i. i ≡ of.told_of (below at.now i.path) file) }
    ensures memory { IfErr result (λ e. e ≡ Memory) }
{
    match at.below(alloc, file.named.number) {
        Ok(place) => Ok(told(place, file)),
        Err(_) => Err(FileError::Memory),
    }
}

/// What is told of the file of a record of a directory.
fn info_below<B: Blocks>(
    alloc: Global,
    on: &mut B,
    root: u32,
    at: &Place,
    dir: &File,
    named: Record,
) -> Result<Info, FileError>
    requires may { MayLook (B.state on.old) root }
    requires holds { FileHolds (B.state on.old) dir.now }
    requires high { 40 ≤ dir.now.rank }
    requires record { RecordHolds named }
    ensures fits { IfOk result InfoFits }
    ensures name { IfOk result (λ i. i.name ≡ named.name) }
    ensures told { IfOk result (λ i. IsTold (B.state on.new) (below at.now i.path) i) }
    ensures looks { Looks (B.state on.old) (B.state on.new) × B.keeps on.old on.new }
    ensures cause { Refuses (faults_of (B.state on.old)) (faults_of (B.state on.new)) ⊥ (λ n. ⊥) 0 result }
{
    match below(alloc, on, dir, named) {
        Ok(file) => told_below(alloc, at, file),
        Err(why) => Err(file_error(why)),
    }
}

/// What is told of the file with this name in a directory.
fn find_in<B: Blocks>(
    alloc: Global,
    on: &mut B,
    root: u32,
    at: &Place,
    dir: &File,
    name: &[u8],
) -> Result<Info, FileError>
    requires may { MayLook (B.state on.old) root }
    requires holds { FileHolds (B.state on.old) dir.now }
    requires high { 40 ≤ dir.now.rank }
    ensures fits { IfOk result InfoFits }
    ensures name { IfOk result (λ i. i.name ≡ name.now) }
    ensures told { IfOk result (λ i. IsTold (B.state on.new) (below at.now i.path) i) }
    ensures looks { Looks (B.state on.old) (B.state on.new) × B.keeps on.old on.new }
    ensures cause { Refuses (faults_of (B.state on.old)) (faults_of (B.state on.new)) ⊥ (λ n. ⊥) 0 result }
{
    let named = match named_in(alloc, on, root, dir, name) {
        Ok(Some(named)) => named,
        Ok(None) => return Err(FileError::Absent),
        Err(why) => return Err(file_error(why)),
    };
    info_below(alloc, on, root, at, dir, named)
}

/// What is told of the file with this name in the directory at a place.
pub fn find<B: Blocks>(
    alloc: Global,
    on: &mut B,
    root: u32,
    at: &Place,
    name: &[u8],
) -> Result<Info, FileError>
    requires may { MayLook (B.state on.old) root }
    ensures fits { IfOk result InfoFits }
    ensures name { IfOk result (λ i. i.name ≡ name.now) }
    ensures told { IfOk result (λ i. IsTold (B.state on.new) (below at.now i.path) i) }
    ensures looks { Looks (B.state on.old) (B.state on.new) × B.keeps on.old on.new }
    ensures cause { Refuses (faults_of (B.state on.old)) (faults_of (B.state on.new)) ⊥ (λ n. ⊥) 0 result }
{
    let dir = match dir_at(alloc, on, root, at.trail.as_slice()) {
        Ok(dir) => dir,
        Err(why) => return Err(why),
    };
    find_in(alloc, on, root, at, &dir, name)
}

/// The bytes of the name given; none where none is, which each name is after.
fn name_of(after: Option<&Bytes>) -> &[u8]
    ensures { result.now ≡ of.name_given (option_copied after.entry) }
{
    match after {
        Some(name) => name.as_slice(),
        None => b"",
    }
}

/// The same as `info_below`, where there may be a file to tell of.
fn some_below<B: Blocks>(
    alloc: Global,
    on: &mut B,
    root: u32,
    at: &Place,
    dir: &File,
    named: Record,
) -> Result<Option<Info>, FileError>
    requires may { MayLook (B.state on.old) root }
    requires holds { FileHolds (B.state on.old) dir.now }
    requires high { 40 ≤ dir.now.rank }
    requires record { RecordHolds named }
    ensures fits { IfOk result (λ told. IfSome told InfoFits) }
    ensures told { IfOk result (λ told. IfSome told (λ i. IsTold (B.state on.new) (below at.now i.path) i)) }
    ensures name { IfOk result (λ told. IfSome told (λ i. i.name ≡ named.name)) }
    ensures looks { Looks (B.state on.old) (B.state on.new) × B.keeps on.old on.new }
    ensures cause { Refuses (faults_of (B.state on.old)) (faults_of (B.state on.new)) ⊥ (λ n. ⊥) 0 result }
{
    match info_below(alloc, on, root, at, dir, named) {
        Ok(told) => Ok(Some(told)),
        Err(why) => Err(why),
    }
}

/// What is told of the file with the least name after this one in a directory; None where no name is left.
fn next_told<B: Blocks>(
    alloc: Global,
    on: &mut B,
    root: u32,
    at: &Place,
    dir: &File,
    after: &[u8],
) -> Result<Option<Info>, FileError>
    requires may { MayLook (B.state on.old) root }
    requires holds { FileHolds (B.state on.old) dir.now }
    requires high { 40 ≤ dir.now.rank }
    ensures fits { IfOk result (λ told. IfSome told InfoFits) }
    ensures told { IfOk result (λ told. IfSome told (λ i. IsTold (B.state on.new) (below at.now i.path) i)) }
    ensures later { IfOk result (λ told. IfSome told (λ i. comes_before after.now i.name ≡ true)) }
    ensures looks { Looks (B.state on.old) (B.state on.new) × B.keeps on.old on.new }
    ensures cause { Refuses (faults_of (B.state on.old)) (faults_of (B.state on.new)) ⊥ (λ n. ⊥) 0 result }
{
    let named = match next_in(alloc, on, root, dir, after) {
        Ok(Some(named)) => named,
        Ok(None) => return Ok(None),
        Err(why) => return Err(file_error(why)),
    };
    some_below(alloc, on, root, at, dir, named)
}

/// What is told of the file with the least name in the directory at a place, above the one given; None where no name is left.
pub fn next_name<B: Blocks>(
    alloc: Global,
    on: &mut B,
    root: u32,
    at: &Place,
    after: Option<&Bytes>,
) -> Result<Option<Info>, FileError>
    requires may { MayLook (B.state on.old) root }
    ensures fits { IfOk result (λ told. IfSome told InfoFits) }
    ensures told { IfOk result (λ told. IfSome told (λ i. IsTold (B.state on.new) (below at.now i.path) i)) }
    ensures later { IfOk result (λ told. IfSome told (λ i. comes_before (of.name_given (option_copied after.entry)) i.name ≡ true)) }
    ensures looks { Looks (B.state on.old) (B.state on.new) × B.keeps on.old on.new }
    ensures cause { Refuses (faults_of (B.state on.old)) (faults_of (B.state on.new)) ⊥ (λ n. ⊥) 0 result }
{
    let dir = match dir_at(alloc, on, root, at.trail.as_slice()) {
        Ok(dir) => dir,
        Err(why) => return Err(why),
    };
    next_told(alloc, on, root, at, &dir, name_of(after))
}

/// The file, where it is none of the directories.
fn as_file(file: File) -> Result<File, FileError>
    ensures { MatchResult result (λ f. (f ≡ file) × (file.dir ≡ false)) (λ e. (e ≡ IsDir) × (file.dir ≡ true)) }
{
    if file.dir {
        Err(FileError::IsDir)
    } else {
        Ok(file)
    }
}

/// The file at a place that is no directory.
fn file_at<B: Blocks>(
    alloc: Global,
    on: &mut B,
    root: u32,
    trail: &[u32],
) -> Result<File, FileError>
    requires may { MayLook (B.state on.old) root }
    ensures holds { IfOk result (λ f. FileHolds (B.state on.new) f) }
    ensures file { IfOk result (λ f. f.dir ≡ false) }
    ensures number { IfOk result (λ f. 0 < length trail.now → f.named.number ≡ last trail.now) }
    ensures looks { Looks (B.state on.old) (B.state on.new) × B.keeps on.old on.new }
    ensures cause { Refuses (faults_of (B.state on.old)) (faults_of (B.state on.new)) ⊥ (λ n. ⊥) 0 result }
{
    match reach(alloc, on, root, trail) {
        Ok(file) => as_file(file),
        Err(why) => Err(why),
    }
}

/// Puts the bytes of a source from an offset on into the front of `into`, and says how many.
fn read_source<B: Blocks>(
    on: &mut B,
    source: Source,
    offset: u64,
    into: &mut [u8],
) -> Result<usize, FileError>
    requires over { Over (B.state on.old) source.ways.tree source.ways.kept.items source.ways.limit }
    ensures count { IfOk result (λ n. n ≡ min (length into.old) (source.ways.tree.size - offset)) }
    ensures behind { IfOk result (λ n. drop n into.new ≡ drop n into.old) }
    ensures looks { Looks (B.state on.old) (B.state on.new) × B.keeps on.old on.new }
    ensures cause { Refuses (faults_of (B.state on.old)) (faults_of (B.state on.new)) ⊥ (λ n. ⊥) 0 result }
{
    let mut source = source;
    match source.read(on, offset, into) {
        Ok(count) => Ok(count),
        Err(why) => Err(file_error(why)),
    }
}

/// Puts the bytes of a file from an offset on into the front of `into`, and says how many.
fn read_of<B: Blocks>(
    alloc: Global,
    on: &mut B,
    file: &File,
    offset: u64,
    into: &mut [u8],
) -> Result<usize, FileError>
    requires silent { (B.state on.old).tells → ⊥ }
    requires holds { FileHolds (B.state on.old) file.now }
    ensures count { IfOk result (λ n. n ≡ min (length into.old) (file.now.first.size - offset)) }
    ensures behind { IfOk result (λ n. drop n into.new ≡ drop n into.old) }
    ensures looks { Looks (B.state on.old) (B.state on.new) × B.keeps on.old on.new }
    ensures cause { Refuses (faults_of (B.state on.old)) (faults_of (B.state on.new)) ⊥ (λ n. ⊥) 0 result }
{
    match data_of(alloc, on, file) {
        Ok(source) => read_source(on, source, offset, into),
        Err(why) => Err(file_error(why)),
    }
}

/// Puts the bytes of the file at a place from an offset on into the front of `into`, as many as exist and fit, and says how many. The rest of
/// `into` stays; where it is refused the front may have been changed.
pub fn read<B: Blocks>(
    alloc: Global,
    on: &mut B,
    root: u32,
    at: &Place,
    offset: u64,
    into: &mut [u8],
) -> Result<usize, FileError>
    requires may { MayLook (B.state on.old) root }
    ensures count { IfOk result (IsRead (B.state on.new) at.now.trail offset (length into.old)) }
    ensures behind { IfOk result (λ n. drop n into.new ≡ drop n into.old) }
    ensures looks { Looks (B.state on.old) (B.state on.new) × B.keeps on.old on.new }
    ensures cause { Refuses (faults_of (B.state on.old)) (faults_of (B.state on.new)) ⊥ (λ n. ⊥) 0 result }
{
    let file = match file_at(alloc, on, root, at.trail.as_slice()) {
        Ok(file) => file,
        Err(why) => return Err(why),
    };
    read_of(alloc, on, &file, offset, into)
}
