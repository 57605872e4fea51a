//! The record of a file after a change.
ghost use Rattle.std.specs.Prelude.{◌≡◌, ◌^◌, ◌<◌, ℕ, IfOk, IfErr};
ghost use Rattle.fo_world.specs.declared.error.FileError.TheVariants.{Memory};
ghost use Rattle.fo_files_edit.specs.Fields as is;

use fo_base::Bytes;
use fo_files_into::files_along::touch;
use fo_image::Record;
use fo_world::{Change, FileError};
use std::alloc::Global;

/// The bit of a mode that directories have (stat(5)).
const DIR: u32 = 1 << 31;

/// A mode with the directory bit that a file has.
fn kept_mode(mode: u32, was: u32) -> u32
    ensures { result ≡ is.kept_mode mode was }
{
    if DIR <= was {
        if DIR <= mode { mode } else { mode + DIR }
    } else if DIR <= mode {
        mode - DIR
    } else {
        mode
    }
}

/// A record with this mode, where one is given; it stays a directory's, or a file's.
fn with_mode(named: Record, mode: Option<u32>) -> Record
    ensures { result ≡ is.with_mode mode named }
{
    match mode {
        Some(mode) => Record {
            mode: kept_mode(mode, named.mode),
            ..named
        },
        None => named,
    }
}

/// A record with this time of its last change, where one is given.
fn with_mtime(named: Record, mtime: Option<u32>) -> Record
    ensures { result ≡ is.with_mtime mtime named }
{
    match mtime {
        Some(mtime) => Record { mtime, ..named },
        None => named,
    }
}

/// The record of a file that gets a length, where one is given: somebody wrote to it at a moment. A directory's stays. Refused: want of memory.
fn with_length(
    alloc: Global,
    named: Record,
    given: Option<u64>,
    dir: bool,
    who: &Bytes,
    now: u32,
) -> Result<Record, FileError>
    ensures is { IfOk result (λ r. r ≡ is.with_length given dir who.now now named) }
    ensures memory { IfErr result (λ e. e ≡ Memory) }
{
    match given {
        Some(_) => touched_file(alloc, named, dir, who, now),
        None => Ok(named),
    }
}

/// The record of a file to which somebody wrote at a moment; a directory's stays. Refused: want of memory.
fn touched_file(
    alloc: Global,
    named: Record,
    dir: bool,
    who: &Bytes,
    now: u32,
) -> Result<Record, FileError>
    ensures is { IfOk result (λ r. r ≡ is.touched_file dir who.now now named) }
    ensures memory { IfErr result (λ e. e ≡ Memory) }
{
    if dir {
        return Ok(named);
    }
    match who.copy(alloc) {
        Ok(who) => Ok(touch(named, who, now)),
        Err(_) => Err(FileError::Memory),
    }
}

/// A record with this group, where one is given. Refused: want of memory.
fn with_gid(alloc: Global, named: Record, gid: &Option<Bytes>) -> Result<Record, FileError>
    ensures is { IfOk result (λ r. r ≡ is.with_gid gid.now named) }
    ensures memory { IfErr result (λ e. e ≡ Memory) }
{
    match gid {
        Some(gid) => match gid.copy(alloc) {
            Ok(gid) => Ok(Record { gid, ..named }),
            Err(_) => Err(FileError::Memory),
        },
        None => Ok(named),
    }
}

/// A record with this name, where one is given. Refused: want of memory.
fn with_name(alloc: Global, named: Record, name: &Option<Bytes>) -> Result<Record, FileError>
    ensures is { IfOk result (λ r. r ≡ is.with_name name.now named) }
    ensures memory { IfErr result (λ e. e ≡ Memory) }
{
    match name {
        Some(name) => match name.copy(alloc) {
            Ok(name) => Ok(Record { name, ..named }),
            Err(_) => Err(FileError::Memory),
        },
        None => Ok(named),
    }
}

/// The record of a file, or of a directory, after all that is given, by somebody at a moment. Refused: want of memory.
pub(crate) fn edited(
    alloc: Global,
    named: Record,
    what: &Change,
    dir: bool,
    who: &Bytes,
    now: u32,
) -> Result<Record, FileError>
    ensures is { IfOk result (λ r. r ≡ is.edited what.now dir who.now now named) }
    ensures memory { IfErr result (λ e. e ≡ Memory) }
{
    let named = match with_length(alloc, named, what.length, dir, who, now) {
        Ok(named) => named,
        Err(why) => return Err(why),
    };
    let named = match with_gid(alloc, named, &what.gid) {
        Ok(named) => named,
        Err(why) => return Err(why),
    };
    let named = match with_name(alloc, named, &what.name) {
        Ok(named) => named,
        Err(why) => return Err(why),
    };
    Ok(with_mtime(with_mode(named, what.mode), what.mtime))
}
