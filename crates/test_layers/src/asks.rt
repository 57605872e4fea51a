//! Requests as rows of a table, over files on disks that were formatted just now.
ghost use Rattle.std.specs.Prelude.{◌≡◌, None, IfOk};
ghost use Rattle.fo_world.specs.Limits.{IsUser};

use fo_base::{Bytes, is_text};
use fo_ports::Blocks;
use fo_world::{Change, FileError, FileOps, Place, Trail, View};
use std::alloc::Global;
use std::process::Abort;
use test_requests::Files;
use test_requests::disks::{On, closed, formatted, opened};
use test_requests::requests::{
    DIR, FILE, begins_with, found, has_bytes, info, is, is_refused, make, parent, remove, rename,
    write,
};

/// A request about the file of a trail.
#[derive(Clone, Copy)]
pub enum Ask<'a> {
    /// A file of this name and mode is made in the directory.
    Make(&'a [u8], u32),
    /// So many files are made in the root, with the numbers from the first on, and long names by them.
    Crowd(u32, u32),
    /// These bytes are written at an offset.
    Write(u64, &'a [u8]),
    /// So many blocks of sevens are written from an offset on, one after another.
    Fill(u64, u32),
    /// The file gets this length.
    Cut(u64),
    /// The file gets this mode.
    Mark(u32),
    /// The file gets this name.
    Rename(&'a [u8]),
    /// The file gets the long name of this number.
    RenameLong(u32),
    /// The file is removed.
    Remove,
    /// Number and length of the file.
    Info,
    /// Mode and time of the last change of the file.
    State,
    /// Number and length of the directory above.
    Parent,
    /// Number and length of the file of this name in the directory.
    Find(&'a [u8]),
    /// Number and length of the file with the long name of this number in the directory.
    FindLong(u32),
    /// The first name in the directory is this one.
    First(&'a [u8]),
    /// The file has just these bytes, at most 15.
    Holds(&'a [u8]),
    /// These bytes, at most 8, stand at an offset of the file.
    Stands(u64, &'a [u8]),
    /// All is settled.
    Sync,
}

/// What is wanted of an answer.
#[derive(Clone, Copy)]
pub enum Wanted<'a> {
    /// It is granted.
    Done,
    /// It is these two numbers.
    Is(u64, u64),
    /// It is refused with this text.
    Refused(&'a [u8]),
}

/// The trail of a file, what is asked of it and what is to be answered.
pub type Row<'a> = (&'a [u32], Ask<'a>, Wanted<'a>);

/// Two numbers, or why they aren't told.
type Answer = Result<(u64, u64), FileError>;

/// A directory `d`, in that `e`, and in that `f`, with five bytes: files 1 to 3.
pub const NEST: &[Row] = &[
    (&[], Ask::Make(b"d", DIR), Wanted::Is(1, 0)),
    (&[1], Ask::Make(b"e", DIR), Wanted::Is(2, 0)),
    (&[1, 2], Ask::Make(b"f", FILE), Wanted::Is(3, 0)),
    (&[1, 2, 3], Ask::Write(0, b"hello"), Wanted::Done),
];

/// The root of a view, or a file by the numbers from there.
pub fn place(alloc: Global, view: View, trail: &[u32]) -> Result<Place, FileError> {
    Ok(Place {
        view,
        trail: Trail::new(Vec::from_slice(alloc, trail)?),
    })
}

/// The user `adm`.
fn adm(alloc: Global) -> Result<Bytes, FileError>
    ensures { IfOk result IsUser }
{
    let name = b"adm".as_slice();
    if name.is_empty() || 64 < name.len() || !is_text(name) {
        return Err(FileError::Memory);
    }
    Ok(Bytes::copy_of(alloc, name)?)
}

/// Another mode or length.
fn to(mode: Option<u32>, length: Option<u64>) -> Change
    ensures { (result.name ≡ None) × (result.gid ≡ None) }
{
    Change {
        mode,
        mtime: None,
        length,
        name: None,
        gid: None,
    }
}

/// Gives the file of this trail another mode or length at the moment 104.
fn change<B: Blocks>(
    alloc: Global,
    files: &mut Files<B>,
    trail: &[u32],
    mode: Option<u32>,
    length: Option<u64>,
) -> Result<(), FileError> {
    match (place(alloc, View::Active, trail), adm(alloc)) {
        (Ok(at), Ok(user)) => files.change(&at, &to(mode, length), &user, 104),
        _ => Err(FileError::Memory),
    }
}

/// The mode and the time of the last change of the file of this trail.
fn state<B: Blocks>(alloc: Global, files: &mut Files<B>, trail: &[u32]) -> Answer {
    match place(alloc, View::Active, trail) {
        Ok(at) => match files.info(&at) {
            Ok(told) => Ok((u64::from(told.mode), u64::from(told.mtime))),
            Err(why) => Err(why),
        },
        Err(why) => Err(why),
    }
}

/// Whether these bytes, eight at most, stand at a place of the file of this trail.
fn stands<B: Blocks>(
    alloc: Global,
    files: &mut Files<B>,
    trail: &[u32],
    from: u64,
    wanted: &[u8],
) -> bool {
    let mut into = [0; 8];
    match place(alloc, View::Active, trail) {
        Ok(at) => match files.read(&at, from, &mut into) {
            Ok(_) => into.starts_with(wanted),
            Err(_) => false,
        },
        Err(_) => false,
    }
}

/// A name of 64 bytes, which is another for each number below 256.
fn long_name(number: u32) -> [u8; 64] {
    let mut name = [b'x'; 64];
    name[0] = b'a' + (number / 16 % 16) as u8;
    name[1] = b'a' + (number % 16) as u8;
    name
}

/// Makes files in the root that have the numbers from the first on, and such names.
fn crowd<B: Blocks>(alloc: Global, files: &mut Files<B>, first: u32, count: u32) -> bool {
    for i in 0..count {
        let number = first.saturating_add(i);
        let answer = make(alloc, files, &[], &long_name(number), FILE);
        if !is(answer, u64::from(number), 0) {
            return false;
        }
    }
    true
}

/// Writes so many blocks of sevens from an offset of a file on.
fn fill<B: Blocks>(
    alloc: Global,
    files: &mut Files<B>,
    trail: &[u32],
    from: u64,
    blocks: u32,
) -> Result<(), FileError> {
    for i in 0..blocks {
        let at = from.saturating_add(8192 * u64::from(i));
        write(alloc, files, trail, at, &[7; 8192])?;
    }
    Ok(())
}

/// The answer of a change that was granted, or why it was refused.
fn done(answer: Result<(), FileError>) -> Answer {
    match answer {
        Ok(()) => Ok((0, 0)),
        Err(why) => Err(why),
    }
}

/// An answer that is granted where it is as it is wanted.
fn seen(so: bool) -> Answer {
    if so {
        return Ok((0, 0));
    }
    Err(FileError::Memory)
}

/// What a request that only looks is answered. No other is granted.
fn look<B: Blocks>(alloc: Global, files: &mut Files<B>, trail: &[u32], ask: Ask<'_>) -> Answer {
    match ask {
        Ask::Info => info(alloc, files, trail),
        Ask::State => state(alloc, files, trail),
        Ask::Parent => parent(alloc, files, trail),
        Ask::Find(name) => found(alloc, files, trail, name),
        Ask::FindLong(number) => found(alloc, files, trail, &long_name(number)),
        Ask::First(name) => seen(begins_with(alloc, files, trail, name)),
        Ask::Holds(bytes) => seen(has_bytes(alloc, files, trail, bytes)),
        Ask::Stands(from, bytes) => seen(stands(alloc, files, trail, from, bytes)),
        _ => seen(false),
    }
}

/// What a request is answered.
fn request<B: Blocks>(alloc: Global, files: &mut Files<B>, trail: &[u32], ask: Ask<'_>) -> Answer {
    match ask {
        Ask::Make(name, mode) => make(alloc, files, trail, name, mode),
        Ask::Crowd(first, count) => seen(crowd(alloc, files, first, count)),
        Ask::Write(from, piece) => done(write(alloc, files, trail, from, piece)),
        Ask::Fill(from, blocks) => done(fill(alloc, files, trail, from, blocks)),
        Ask::Cut(length) => done(change(alloc, files, trail, None, Some(length))),
        Ask::Mark(mode) => done(change(alloc, files, trail, Some(mode), None)),
        Ask::Rename(name) => done(rename(alloc, files, trail, name)),
        Ask::RenameLong(number) => done(rename(alloc, files, trail, &long_name(number))),
        Ask::Remove => done(remove(alloc, files, trail)),
        Ask::Sync => done(files.sync()),
        _ => look(alloc, files, trail, ask),
    }
}

/// Whether an answer is as it is wanted.
fn is_so(answer: Answer, wanted: Wanted<'_>) -> bool {
    match wanted {
        Wanted::Done => answer.is_ok(),
        Wanted::Is(one, two) => is(answer, one, two),
        Wanted::Refused(text) => is_refused(answer, text),
    }
}

/// How many rows, one after another, are answered as they are wanted, up to the first that isn't.
fn went<'a, B: Blocks>(alloc: Global, files: &mut Files<B>, rows: &'a [Row<'a>]) -> usize {
    for (i, (trail, ask, wanted)) in rows.iter().enumerate() {
        if !is_so(request(alloc, files, trail, *ask), *wanted) {
            return i;
        }
    }
    rows.len()
}

/// Each row is answered as it is wanted.
pub fn goes<'a>(rt: &impl Abort, alloc: Global, files: &mut On, rows: &'a [Row<'a>]) {
    assert_eq!(rt; went(alloc, files, rows), rows.len());
}

/// Files on disks that were formatted just now.
pub fn fresh(rt: &impl Abort, alloc: Global) -> On {
    let disks = formatted(alloc, Vec::new(alloc)).expect(rt, "formatted");
    opened(alloc, disks).expect(rt, "opened")
}

/// The files leave devices of their sizes.
pub fn closes(rt: &impl Abort, files: On) {
    assert!(rt; closed(files).is_some());
}

/// Each row is answered as it is wanted, over fresh files.
pub fn works<'a>(rt: &impl Abort, alloc: Global, rows: &'a [Row<'a>]) {
    let mut files = fresh(rt, alloc);
    goes(rt, alloc, &mut files, rows);
    closes(rt, files);
}

/// Each row is answered as it is wanted, over fresh files with those of `NEST`.
pub fn works_below<'a>(rt: &impl Abort, alloc: Global, rows: &'a [Row<'a>]) {
    let mut files = fresh(rt, alloc);
    goes(rt, alloc, &mut files, NEST);
    goes(rt, alloc, &mut files, rows);
    closes(rt, files);
}
