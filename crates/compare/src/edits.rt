//! Calls that change, on the files and then on the plain files.
ghost use Rattle.std.specs.Prelude.{◌≡◌, ◌<◌, ℕ, length, Some, None, IfOk, IfSome};
ghost use Rattle.fo_world.specs.Limits.{IsName, IsUser};
ghost use Rattle.fo_world.specs.Step.{is_dir_mode};

use crate::call::Asked;
use crate::text::{name, user};
use crate::verdict::{Pairs, Spot, Verdict, apart, differs, is_like, judge};
use fo_base::{Bytes, Memory};
use fo_world::{Change, DMDIR, FileError, FileOps, Info, Place};
use std::alloc::Global;

/// A piece of a file: each byte goes by its place.
pub fn piece(alloc: Global, count: u16, salt: u8) -> Result<Vec<u8>, Memory> {
    let mut bytes = Vec::new(alloc);
    for at in 0..count {
        bytes.push(((u32::from(at) + u32::from(salt)) % 251) as u8)?;
    }
    Ok(bytes)
}

/// A piece is written.
pub fn write<F: FileOps, G: FileOps>(
    alloc: Global,
    files: &mut F,
    plain: &mut G,
    spot: &Spot,
    offset: u64,
    bytes: &[u8],
    who: &Bytes,
    now: u32,
) -> Result<Verdict, Memory>
    requires files { F.serves files.old spot.now.files.view }
    requires plain { G.serves plain.old spot.now.plain.view }
    requires who { IsUser who.now }
{
    let told = files.write(&spot.files, offset, bytes, who, now);
    if let Some(verdict) = apart(&told) {
        return Ok(verdict);
    }
    let other = plain.write(&spot.plain, offset, bytes, who, now);
    judge(alloc, &told, &other, &Vec::new(alloc))
}

/// Compares what was made.
fn made(
    alloc: Global,
    told: Result<Info, FileError>,
    plain: Result<Info, FileError>,
    pairs: &Pairs,
) -> Result<Verdict, Memory> {
    match (told, plain) {
        (Ok(told), Ok(plain)) => {
            if is_like(&told, &plain) && pairs.iter().all(|p| p.0 < told.path) {
                return Ok(Verdict::Made(Spot {
                    directory: DMDIR <= told.mode,
                    files: told.place,
                    plain: plain.place,
                }));
            }
            differs(alloc, &told, &plain)
        }
        (told, plain) => judge(alloc, &told, &plain, pairs),
    }
}

/// A file is made.
pub fn create<F: FileOps, G: FileOps>(
    alloc: Global,
    files: &mut F,
    plain: &mut G,
    spot: &Spot,
    pairs: &Pairs,
    name: &Bytes,
    mode: u32,
    who: &Bytes,
    now: u32,
) -> Result<Verdict, Memory>
    requires files { F.serves files.old spot.now.files.view }
    requires plain { G.serves plain.old spot.now.plain.view }
    requires name { IsName name.now }
    requires who { IsUser who.now }
{
    let told = files.create(&spot.files, name, mode, who, who, who, now);
    if let Some(verdict) = apart(&told) {
        return Ok(verdict);
    }
    let other = plain.create(&spot.plain, name, mode, who, who, who, now);
    made(alloc, told, other, pairs)
}

/// A file is removed, but the root.
fn remove_one<F: FileOps>(files: &mut F, at: &Place, who: &Bytes, now: u32) -> Result<(), FileError>
    requires serves { F.serves files.old at.now.view }
    requires who { IsUser who.now }
{
    if at.trail.as_slice().is_empty() {
        return Err(FileError::IsDir);
    }
    files.remove(at, who, now)
}

pub fn remove<F: FileOps, G: FileOps>(
    alloc: Global,
    files: &mut F,
    plain: &mut G,
    spot: &Spot,
    who: &Bytes,
    now: u32,
) -> Result<Verdict, Memory>
    requires files { F.serves files.old spot.now.files.view }
    requires plain { G.serves plain.old spot.now.plain.view }
    requires who { IsUser who.now }
{
    let told = remove_one(files, &spot.files, who, now);
    if let Some(verdict) = apart(&told) {
        return Ok(verdict);
    }
    let other = remove_one(plain, &spot.plain, who, now);
    judge(alloc, &told, &other, &Vec::new(alloc))
}

/// The mode with DMDIR as in another.
fn mode_like(mode: u32, old: u32) -> u32
    ensures { is_dir_mode result ≡ is_dir_mode old }
{
    if old < DMDIR {
        mode % DMDIR
    } else {
        mode % DMDIR + DMDIR
    }
}

/// A change with this mode.
fn with_mode(what: Change, mode: u32) -> Change
    ensures { result ≡ record what { mode = Some mode } }
{
    Change {
        mode: Some(mode),
        ..what
    }
}

/// A change where a mode is given: it leaves DMDIR as it is.
fn change_mode<F: FileOps>(
    files: &mut F,
    at: &Place,
    mode: u32,
    what: Change,
    who: &Bytes,
    now: u32,
) -> Result<(), FileError>
    requires serves { F.serves files.old at.now.view }
    requires name { IfSome what.name IsName }
    requires gid { IfSome what.gid IsUser }
    requires root { length at.now.trail ≡ 0 → what.name ≡ None }
    requires who { IsUser who.now }
{
    let old = match files.info(at) {
        Ok(told) => told.mode,
        Err(why) => return Err(why),
    };
    let what = with_mode(what, mode_like(mode, old));
    files.change(at, &what, who, now)
}

/// What is asked is changed; no root gets a name.
fn change_one<F: FileOps>(
    files: &mut F,
    at: &Place,
    mode: Option<u32>,
    what: Change,
    who: &Bytes,
    now: u32,
) -> Result<(), FileError>
    requires serves { F.serves files.old at.now.view }
    requires mode { what.mode ≡ None }
    requires name { IfSome what.name IsName }
    requires gid { IfSome what.gid IsUser }
    requires who { IsUser who.now }
{
    if at.trail.as_slice().is_empty() && what.name.is_some() {
        return Err(FileError::IsDir);
    }
    match mode {
        None => files.change(at, &what, who, now),
        Some(mode) => change_mode(files, at, mode, what, who, now),
    }
}

/// The name of a number, where one is given.
fn maybe_name(alloc: Global, number: Option<u32>) -> Result<Option<Bytes>, Memory>
    ensures { IfOk result (λ n. IfSome n IsName) }
{
    match number {
        None => Ok(None),
        Some(number) => match name(alloc, number) {
            Ok(name) => Ok(Some(name)),
            Err(why) => Err(why),
        },
    }
}

/// The group of a number, where one is given.
fn maybe_group(alloc: Global, number: Option<u32>) -> Result<Option<Bytes>, Memory>
    ensures { IfOk result (λ n. IfSome n IsUser) }
{
    match number {
        None => Ok(None),
        Some(number) => match user(alloc, number) {
            Ok(user) => Ok(Some(user)),
            Err(why) => Err(why),
        },
    }
}

/// A change but for the mode.
fn asked(alloc: Global, what: &Asked) -> Result<Change, Memory>
    ensures mode { IfOk result (λ c. c.mode ≡ None) }
    ensures name { IfOk result (λ c. IfSome c.name IsName) }
    ensures gid { IfOk result (λ c. IfSome c.gid IsUser) }
{
    match (maybe_name(alloc, what.name), maybe_group(alloc, what.gid)) {
        (Ok(name), Ok(gid)) => Ok(Change {
            mode: None,
            mtime: what.mtime,
            length: what.length,
            name,
            gid,
        }),
        _ => Err(Memory),
    }
}

/// A file is changed.
pub fn change<F: FileOps, G: FileOps>(
    alloc: Global,
    files: &mut F,
    plain: &mut G,
    spot: &Spot,
    what: &Asked,
    who: &Bytes,
    now: u32,
) -> Result<Verdict, Memory>
    requires files { F.serves files.old spot.now.files.view }
    requires plain { G.serves plain.old spot.now.plain.view }
    requires who { IsUser who.now }
{
    let first = asked(alloc, what)?;
    let told = change_one(files, &spot.files, what.mode, first, who, now);
    if let Some(verdict) = apart(&told) {
        return Ok(verdict);
    }
    let second = asked(alloc, what)?;
    let other = change_one(plain, &spot.plain, what.mode, second, who, now);
    judge(alloc, &told, &other, &Vec::new(alloc))
}
