//! Requests by one user on files of the active tree, by trails of file numbers from its root.
ghost use Rattle.std.specs.Prelude.{◌≡◌, None, IfOk, IfSome};
ghost use Rattle.fo_world.specs.Limits.{IsName, IsUser};

use fo_base::{Bytes, is_text};
use fo_files::Files;
use fo_ports::Blocks;
use fo_world::{Change, FileError, FileOps, Info, Place, Trail, View};
use std::alloc::Global;

/// The mode of a directory.
pub const DIR: u32 = 0x8000_01ed;

/// The mode of a file.
pub const FILE: u32 = 0o644;

/// A place of the active tree, by the numbers from its root.
fn place(alloc: Global, trail: &[u32]) -> Result<Place, FileError>
    ensures { IfOk result (λ p. p.trail ≡ trail.now) }
{
    Ok(Place {
        view: View::Active,
        trail: Trail::new(Vec::from_slice(alloc, trail)?),
    })
}

/// A name of a file. Another text is refused.
fn name(alloc: Global, bytes: &[u8]) -> Result<Bytes, FileError>
    ensures { IfOk result IsName }
{
    if bytes.is_empty() || 255 < bytes.len() || !is_text(bytes) {
        return Err(FileError::Memory);
    }
    Ok(Bytes::copy_of(alloc, bytes)?)
}

/// The user who asks.
fn user(alloc: Global) -> Result<Bytes, FileError>
    ensures { IfOk result IsUser }
{
    let user = Bytes::copy_of(alloc, b"adm")?;
    if user.as_slice().is_empty() || 64 < user.as_slice().len() || !is_text(user.as_slice()) {
        return Err(FileError::Memory);
    }
    Ok(user)
}

/// The number and the length of what was told.
fn told(answer: Result<Info, FileError>) -> Result<(u64, u64), FileError> {
    match answer {
        Ok(told) => Ok((told.path, told.length)),
        Err(why) => Err(why),
    }
}

/// Makes a file of a name at a place, and answers its number and length.
fn create<B: Blocks>(
    files: &mut Files<B>,
    at: &Place,
    name: &Bytes,
    user: &Bytes,
    mode: u32,
) -> Result<(u64, u64), FileError>
    requires name { IsName name.now }
    requires user { IsUser user.now }
{
    told(files.create(at, name, mode, user, user, user, 100))
}

/// Makes a file in the directory of this trail, and answers its number and length.
pub fn make<B: Blocks>(
    alloc: Global,
    files: &mut Files<B>,
    trail: &[u32],
    bytes: &[u8],
    mode: u32,
) -> Result<(u64, u64), FileError> {
    match (place(alloc, trail), name(alloc, bytes), user(alloc)) {
        (Ok(at), Ok(name), Ok(user)) => create(files, &at, &name, &user, mode),
        _ => Err(FileError::Memory),
    }
}

/// Writes a piece into the file of this trail.
pub fn write<B: Blocks>(
    alloc: Global,
    files: &mut Files<B>,
    trail: &[u32],
    offset: u64,
    piece: &[u8],
) -> Result<(), FileError> {
    match (place(alloc, trail), user(alloc)) {
        (Ok(at), Ok(user)) => files.write(&at, offset, piece, &user, 101),
        _ => Err(FileError::Memory),
    }
}

/// Removes the file of this trail.
pub fn remove<B: Blocks>(
    alloc: Global,
    files: &mut Files<B>,
    trail: &[u32],
) -> Result<(), FileError> {
    if trail.is_empty() {
        return Err(FileError::Memory);
    }
    match (place(alloc, trail), user(alloc)) {
        (Ok(at), Ok(user)) => files.remove(&at, &user, 102),
        _ => Err(FileError::Memory),
    }
}

/// A change of the name alone.
fn to_name(name: Bytes) -> Change
    requires { IsName name }
    ensures name { IfSome result.name IsName }
    ensures gid { result.gid ≡ None }
{
    Change {
        mode: None,
        mtime: None,
        length: None,
        name: Some(name),
        gid: None,
    }
}

/// Gives the file of this trail another name.
pub fn rename<B: Blocks>(
    alloc: Global,
    files: &mut Files<B>,
    trail: &[u32],
    bytes: &[u8],
) -> Result<(), FileError> {
    if trail.is_empty() {
        return Err(FileError::Memory);
    }
    match (place(alloc, trail), name(alloc, bytes), user(alloc)) {
        (Ok(at), Ok(name), Ok(user)) => files.change(&at, &to_name(name), &user, 103),
        _ => Err(FileError::Memory),
    }
}

/// A change of the length alone.
fn to_length(long: u64) -> Change
    ensures name { result.name ≡ None }
    ensures gid { result.gid ≡ None }
{
    Change {
        mode: None,
        mtime: None,
        length: Some(long),
        name: None,
        gid: None,
    }
}

/// Gives the file of this trail another length.
pub fn set_length<B: Blocks>(
    alloc: Global,
    files: &mut Files<B>,
    trail: &[u32],
    long: u64,
) -> Result<(), FileError> {
    if trail.is_empty() {
        return Err(FileError::Memory);
    }
    match (place(alloc, trail), user(alloc)) {
        (Ok(at), Ok(user)) => files.change(&at, &to_length(long), &user, 104),
        _ => Err(FileError::Memory),
    }
}

/// The number and the length of the file of this trail.
pub fn info<B: Blocks>(
    alloc: Global,
    files: &mut Files<B>,
    trail: &[u32],
) -> Result<(u64, u64), FileError> {
    match place(alloc, trail) {
        Ok(at) => told(files.info(&at)),
        Err(why) => Err(why),
    }
}

/// The number and the length of the directory above the file of this trail.
pub fn parent<B: Blocks>(
    alloc: Global,
    files: &mut Files<B>,
    trail: &[u32],
) -> Result<(u64, u64), FileError> {
    match place(alloc, trail) {
        Ok(at) => told(files.parent(&at)),
        Err(why) => Err(why),
    }
}

/// The number and the length of the file of a name in the directory of this trail.
pub fn found<B: Blocks>(
    alloc: Global,
    files: &mut Files<B>,
    trail: &[u32],
    bytes: &[u8],
) -> Result<(u64, u64), FileError> {
    match place(alloc, trail) {
        Ok(at) => told(files.find(&at, bytes)),
        Err(why) => Err(why),
    }
}

/// Whether the first name in the directory of this trail is this one.
pub fn begins_with<B: Blocks>(
    alloc: Global,
    files: &mut Files<B>,
    trail: &[u32],
    wanted: &[u8],
) -> bool {
    match place(alloc, trail) {
        Ok(at) => match files.next_name(&at, None) {
            Ok(Some(told)) => told.name.as_slice() == wanted,
            _ => false,
        },
        Err(_) => false,
    }
}

/// Whether the file of this trail has just these bytes, at most 15.
pub fn has_bytes<B: Blocks>(
    alloc: Global,
    files: &mut Files<B>,
    trail: &[u32],
    wanted: &[u8],
) -> bool {
    let mut into = [0; 16];
    match place(alloc, trail) {
        Ok(at) => match files.read(&at, 0, &mut into) {
            Ok(n) => n == wanted.len() && into.starts_with(wanted),
            Err(_) => false,
        },
        Err(_) => false,
    }
}

/// Whether this number and length were answered.
pub fn is(answer: Result<(u64, u64), FileError>, number: u64, long: u64) -> bool {
    match answer {
        Ok(told) => told == (number, long),
        Err(_) => false,
    }
}

/// Whether a call was refused with this text.
pub fn is_refused<T: Drop>(answer: Result<T, FileError>, text: &[u8]) -> bool {
    match answer {
        Ok(_) => false,
        Err(why) => why.text().as_slice() == text,
    }
}
