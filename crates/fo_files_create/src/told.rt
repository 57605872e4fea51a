//! What is told of a new file.
ghost use Rattle.std.specs.Prelude.{◌≡◌, IfOk, IfErr};
ghost use Rattle.fo_image.specs.Record.{RecordHolds};
ghost use Rattle.fo_world.specs.declared.error.FileError.TheVariants.{Memory};
ghost use Rattle.fo_world.specs.Fits.{InfoFits};
ghost use Rattle.fo_world.specs.Step.{below};
ghost use Rattle.fo_files_create.specs.Create.{told_of};

use fo_image::Record;
use fo_world::{FileError, Info, Place};
use std::alloc::Global;

/// The place of a file directly below. Refused: want of memory.
pub(crate) fn place_below(alloc: Global, at: &Place, number: u32) -> Result<Place, FileError>
    ensures is { IfOk result (λ p. p ≡ below at.now number) }
    ensures memory { IfErr result (λ e. e ≡ Memory) }
{
    match at.below(alloc, number) {
        Ok(place) => Ok(place),
        Err(_) => Err(FileError::Memory),
    }
}

/// What is told of a file without bytes, at its place.
pub(crate) fn told(place: Place, named: Record) -> Info
    requires holds { RecordHolds named }
    ensures fits { InfoFits result }
    ensures is { result ≡ told_of place named }
{
    Info {
        place,
        path: u64::from(named.number),
        name: named.name,
        vers: named.vers,
        mode: named.mode,
        atime: named.atime,
        mtime: named.mtime,
        length: 0,
        uid: named.uid,
        gid: named.gid,
        muid: named.muid,
    }
}
