//! The records of a new file, and of the directory that gets it.
ghost use Rattle.std.specs.Prelude.{◌≡◌, ◌≤◌, ℕ, IfOk, IfErr};
ghost use Rattle.fo_image.specs.Record.{RecordHolds, record_len};
ghost use Rattle.fo_world.specs.declared.error.FileError.TheVariants.{Memory};
ghost use Rattle.fo_world.specs.Limits.{IsName, IsUser};
ghost use Rattle.fo_files_along.specs.Along.{touched, with_touched};
ghost use Rattle.fo_files_create_look.specs.Named as of;

use fo_base::Bytes;
use fo_files_along::files_at::{File, Way};
use fo_files_along::touch;
use fo_image::{Record, record_len};
use fo_world::FileError;
use std::alloc::Global;

/// The record of a new file, but for its number and its pair.
fn record_of(name: Bytes, mode: u32, who: Bytes, uid: Bytes, gid: Bytes, now: u32) -> Record
    ensures { result ≡ of.new_record name mode who uid gid now }
{
    Record {
        name,
        number: 0,
        slot: 0,
        generation: 0,
        vers: 0,
        mode,
        atime: now,
        mtime: now,
        uid,
        gid,
        muid: who,
    }
}

/// The same, with copies of the names. Refused: want of memory.
pub(crate) fn new_record(
    alloc: Global,
    name: &Bytes,
    mode: u32,
    who: &Bytes,
    uid: &Bytes,
    gid: &Bytes,
    now: u32,
) -> Result<Record, FileError>
    requires name { IsName name.now }
    requires who { IsUser who.now }
    requires uid { IsUser uid.now }
    requires gid { IsUser gid.now }
    ensures is { IfOk result (λ r. r ≡ of.new_record name.now mode who.now uid.now gid.now now) }
    ensures holds { IfOk result RecordHolds }
    ensures memory { IfErr result (λ e. e ≡ Memory) }
{
    Ok(record_of(
        name.copy(alloc)?,
        mode,
        who.copy(alloc)?,
        uid.copy(alloc)?,
        gid.copy(alloc)?,
        now,
    ))
}

/// How long the record of a directory is after a user changed it.
pub(crate) fn touched_len(named: &Record, who: &Bytes) -> usize
    requires holds { RecordHolds named.now }
    requires who { IsUser who.now }
    ensures is { (now : ℕ) → result ≡ record_len (touched who.now now named.now) }
    ensures short { result ≤ 481 }
{
    record_len(named) - named.muid.as_slice().len() + who.as_slice().len()
}

/// The way to a directory whose record says that this user changed it at a moment.
fn with_touch(way: Way, who: Bytes, now: u32) -> Way
    ensures { (result.steps ≡ way.steps) × (result.file ≡ with_touched who now way.file) }
{
    let Way { steps, file } = way;
    let File {
        named,
        dir,
        first,
        second,
        leaf,
        rank,
    } = file;
    let named = touch(named, who, now);
    let file = File {
        named,
        dir,
        first,
        second,
        leaf,
        rank,
    };
    Way { steps, file }
}

/// The same, with a copy of the user's name. Refused: want of memory.
pub(crate) fn renewed(alloc: Global, way: Way, who: &Bytes, now: u32) -> Result<Way, FileError>
    ensures is { IfOk result (λ w. (w.steps ≡ way.steps) × (w.file ≡ with_touched who.now now way.file)) }
    ensures memory { IfErr result (λ e. e ≡ Memory) }
{
    match who.copy(alloc) {
        Ok(copy) => Ok(with_touch(way, copy, now)),
        Err(_) => Err(FileError::Memory),
    }
}
