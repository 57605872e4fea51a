//! An archive that is open as files.
ghost use Rattle.std.specs.Prelude.{◌≡◌};
ghost use Rattle.fo_world.specs.declared.place.View.TheVariants.{Archive};

use crate::blocks::empty;
use crate::reads::{HI, entry_of, put_archive};
use fo_disk::MemDisk;
use fo_image::Score;
use fo_vac_files::Opened;
use fo_vacread::VacFiles;
use fo_world::{FileError, FileOps, Info, Place, View};
use std::alloc::Global;
use std::test::Fail;
use venti_store::Arena;

/// What is asked of the files of an archive.
#[derive(Clone, Copy)]
enum Question {
    Listing,
    Name,
    Bytes,
    Above,
    NoFile,
    Change,
}

/// Whether it is file 7, of five bytes and mode 0644.
fn is_hi(told: &Info) -> bool {
    (told.path, told.length, told.mode) == (0x8000_000c_0000_0007, 5, 0x1a4)
}

/// Whether the root directory lists `hi` first.
fn lists<F: FileOps>(alloc: Global, files: &mut F) -> Result<bool, Fail>
    requires { F.serves files.old (Archive 12) }
{
    let root = Place::root(alloc, View::Archive(12));
    let found = files.next_name(&root, None)?;
    Ok(match found {
        Some(told) => is_hi(&told),
        None => false,
    })
}

/// Whether `hi` is found in the root directory.
fn finds<F: FileOps>(alloc: Global, files: &mut F) -> Result<bool, Fail>
    requires { F.serves files.old (Archive 12) }
{
    let root = Place::root(alloc, View::Archive(12));
    let told = files.find(&root, b"hi")?;
    Ok(is_hi(&told))
}

/// Whether the bytes `ello` are read of file 7 from the second on.
fn reads<F: FileOps>(alloc: Global, files: &mut F) -> Result<bool, Fail>
    requires { F.serves files.old (Archive 12) }
{
    let root = Place::root(alloc, View::Archive(12));
    let hi = root.below(alloc, 7)?;
    let mut into = [1; 8];
    let count = files.read(&hi, 1, &mut into)?;
    Ok(count == 4 && into == *b"ello\x01\x01\x01\x01")
}

/// Whether the root directory is above file 7.
fn leads_up<F: FileOps>(alloc: Global, files: &mut F) -> Result<bool, Fail>
    requires { F.serves files.old (Archive 12) }
{
    let root = Place::root(alloc, View::Archive(12));
    let hi = root.below(alloc, 7)?;
    let told = files.parent(&hi)?;
    Ok((told.path, told.mode) == (0x8000_000c_0000_0000, 0x8000_01ff))
}

/// Whether there is no file 8.
fn is_gone<F: FileOps>(alloc: Global, files: &mut F) -> Result<bool, Fail>
    requires { F.serves files.old (Archive 12) }
{
    let root = Place::root(alloc, View::Archive(12));
    let other = root.below(alloc, 8)?;
    let told = files.info(&other);
    Ok(matches!(told, Err(FileError::Gone)))
}

/// Whether file 7 is not written, by its own user.
fn is_read_only<F: FileOps>(alloc: Global, files: &mut F) -> Result<bool, Fail>
    requires { F.serves files.old (Archive 12) }
{
    let root = Place::root(alloc, View::Archive(12));
    let hi = root.below(alloc, 7)?;
    let told = files.info(&hi)?;
    let written = files.write(&hi, 0, b"x", &told.uid, 1);
    Ok(matches!(written, Err(FileError::ReadOnly)))
}

/// Whether these files answer a question as they should.
fn told<F: FileOps>(alloc: Global, files: &mut F, asked: Question) -> Result<bool, Fail>
    requires { F.serves files.old (Archive 12) }
{
    match asked {
        Question::Listing => lists(alloc, files),
        Question::Name => finds(alloc, files),
        Question::Bytes => reads(alloc, files),
        Question::Above => leads_up(alloc, files),
        Question::NoFile => is_gone(alloc, files),
        Question::Change => is_read_only(alloc, files),
    }
}

/// Whether the files of an archive of epoch 12 answer a question as they should.
fn answers(
    alloc: Global,
    arena: &mut Arena<MemDisk>,
    score: &Score,
    asked: Question,
) -> Result<bool, Fail> {
    let opened = Opened::open(alloc, arena, score)?;
    if opened.epoch() != 12 {
        return Ok(false);
    }
    let mut files = VacFiles::new(alloc, arena, opened);
    told(alloc, &mut files, asked)
}

/// An archive of one file, `hi`, with the bytes `hello`.
fn put_hello(arena: &mut Arena<MemDisk>) -> Result<Score, Fail> {
    let hello = arena.put(0, b"hello")?;
    put_archive(arena, &entry_of(0, 5, &hello), &HI)
}

/// An archive is listed and read as files, with ample memory.
#[test]
fn ample(rt: HostRuntime) -> Result<(), Fail> {
    let alloc = rt.alloc();
    let mut arena = empty(alloc)?;
    let score = put_hello(&mut arena)?;
    assert!(rt; answers(alloc, &mut arena, &score, Question::Listing)?);
    assert!(rt; answers(alloc, &mut arena, &score, Question::Name)?);
    assert!(rt; answers(alloc, &mut arena, &score, Question::Bytes)?);
    assert!(rt; answers(alloc, &mut arena, &score, Question::Above)?);
    Ok(())
}

/// A file that is not there, and a write.
#[test]
fn refusals(rt: HostRuntime) -> Result<(), Fail> {
    let alloc = rt.alloc();
    let mut arena = empty(alloc)?;
    let score = put_hello(&mut arena)?;
    assert!(rt; answers(alloc, &mut arena, &score, Question::NoFile)?);
    assert!(rt; answers(alloc, &mut arena, &score, Question::Change)?);
    Ok(())
}
