//! Files of archives that are read.
ghost use Rattle.std.specs.Prelude.{◌≡◌, ◌+◌, ◌≤◌, length};

use crate::blocks::{TOP, empty, root_of};
use fo_disk::MemDisk;
use fo_image::{Score, Text};
use fo_vac_dir::{Folder, Wanted};
use fo_vac_open::open_archive;
use fo_vac_walk::{Source, WalkError};
use fo_vacput::is_vac_top;
use std::alloc::Global;
use std::test::Fail;
use venti_store::Arena;

/// A leaf of one record: file 7 with the name `hi`, of mode 0644 and slot pair 0.
pub(crate) const HI: [u8; 49] = [
    0, 1, 0, 45, //
    0, 45, 0, 0, 0, 7, 0, 0, 0, 0, 0, 0, 0, 0, 0, 0, 0, 0, 0, 0, 1, 0xa4, 0, 0, 0, 3, 0, 0, 0, 3, //
    2, b'h', b'i', 3, b'a', b'd', b'm', 3, b'a', b'd', b'm', 3, b'a', b'd', b'm',
];

/// The entry of a source of this depth and of fewer than 65,536 bytes.
pub(crate) fn entry_of(depth: u8, size: u16, score: &Score) -> [u8; 40]
    ensures { length result ≡ 40 }
{
    let mut bytes = [0; 40];
    bytes[4..8].copy_from_slice(&[0x1f, 0xf4, 0x20, 0]);
    bytes[8] = if depth == 0 { 1 } else { 5 };
    bytes[18..20].copy_from_slice(&size.to_be_bytes());
    bytes[20..40].copy_from_slice(&score.0);
    bytes
}

/// Puts these bytes at a place.
fn put(bytes: &mut [u8], at: usize, part: &[u8])
    requires { at + length part.now ≤ length bytes.old }
    ensures { length bytes.new ≡ length bytes.old }
{
    bytes[at..at + part.len()].copy_from_slice(part);
}

/// The top block of these two sources.
fn top_of(entries: &Score, meta: &Score) -> [u8; 124]
    ensures { length result ≡ 124 }
{
    let mut bytes = [0; 124];
    put(&mut bytes, 0, &TOP);
    put(&mut bytes, 20, &entries.0);
    put(&mut bytes, 60, &meta.0);
    bytes
}

/// Puts an archive: the entries in block 3 of the device, the records in block 4, the top block in block 5, where block 2 is taken.
pub(crate) fn put_archive(
    arena: &mut Arena<MemDisk>,
    entry: &[u8; 40],
    meta: &[u8; 49],
) -> Result<Score, Fail> {
    let entries = arena.put(8, entry)?;
    let meta = arena.put(0, meta)?;
    let top = arena.put(17, &top_of(&entries, &meta))?;
    Ok(arena.put(16, &root_of(&top))?)
}

/// The root directory of the archive of this score.
fn root_folder(alloc: Global, arena: &mut Arena<MemDisk>, score: &Score) -> Result<Folder, Fail> {
    let found = open_archive(alloc, arena, score)?;
    if is_vac_top(&found.top) {
        Ok(Folder::root(&found.top, 5))
    } else {
        Err(Fail::from(WalkError::Memory))
    }
}

/// The source of the file that is wanted.
fn source_of(
    alloc: Global,
    arena: &mut Arena<MemDisk>,
    folder: Folder,
    wanted: &Wanted,
) -> Result<Source, WalkError> {
    match folder.record(alloc, arena, wanted)? {
        Some(found) => folder.file(alloc, arena, &found),
        None => Ok(Source::none(0)),
    }
}

/// Whether these eight bytes are read of a source from an offset on.
fn reads(
    alloc: Global,
    arena: &mut Arena<MemDisk>,
    source: Source,
    offset: u64,
    bytes: &[u8; 8],
) -> Result<bool, Fail> {
    let mut into = [1; 8];
    source.read(alloc, arena, offset, &mut into)?;
    Ok(into == *bytes)
}

/// Whether the root directory of the archive has no file but `hi`, which has the bytes `hello`.
fn has_hello(alloc: Global, arena: &mut Arena<MemDisk>, score: &Score) -> Result<bool, Fail> {
    let root = root_folder(alloc, arena, score)?;
    let name = Text::copy_of(alloc, b"hi")?;
    let hi = source_of(alloc, arena, root, &Wanted::Name(name.copy(alloc)?))?;
    let same = source_of(alloc, arena, root, &Wanted::Number(7))?;
    let none = source_of(alloc, arena, root, &Wanted::Next(Some(name)))?;
    Ok(reads(alloc, arena, hi, 1, b"ello\x01\x01\x01\x01")? && same.size() == 5 && none.size() == 0)
}

/// A file of an archive is found and read, with ample memory.
#[test]
fn ample(rt: HostRuntime) -> Result<(), Fail> {
    let alloc = rt.alloc();
    let mut arena = empty(alloc)?;
    let hello = arena.put(0, b"hello")?;
    let score = put_archive(&mut arena, &entry_of(0, 5, &hello), &HI)?;
    assert!(rt; has_hello(alloc, &mut arena, &score)?);
    Ok(())
}

/// Two pointers, of which the first is nil, put back to a block of pointers.
fn pointers(second: &Score) -> [u8; 40]
    ensures { length result ≡ 40 }
{
    let mut bytes = [0; 40];
    bytes[..20].copy_from_slice(&fo_vacput::EMPTY.0);
    bytes[20..].copy_from_slice(&second.0);
    bytes
}

/// The block that is named as damaged where the file `hi` of the archive is read.
fn damaged(alloc: Global, arena: &mut Arena<MemDisk>, score: &Score) -> Result<u32, Fail> {
    let root = root_folder(alloc, arena, score)?;
    let mut into = [0; 8];
    let read = match source_of(alloc, arena, root, &Wanted::Number(7)) {
        Ok(hi) => hi.read(alloc, arena, 8190, &mut into),
        Err(why) => Err(why),
    };
    match read {
        Err(WalkError::Damaged(at)) => Ok(at),
        _ => Ok(0),
    }
}

/// A file of two leaves, of which the first is nowhere, and one of which the pointers name a block that is not held.
#[test]
fn below_pointers(rt: HostRuntime) -> Result<(), Fail> {
    let alloc = rt.alloc();
    let mut arena = empty(alloc)?;
    let hello = arena.put(0, b"hello")?;
    let block = arena.put(1, &pointers(&hello))?;
    let score = put_archive(&mut arena, &entry_of(1, 8197, &block), &HI)?;
    let root = root_folder(alloc, &mut arena, &score)?;
    let hi = source_of(alloc, &mut arena, root, &Wanted::Number(7))?;
    assert!(rt; reads(alloc, &mut arena, hi, 8190, b"\0\0hello\x01")?);
    Ok(())
}

/// What is lost is damage of the block that names it, and what is not of its form is damage of its own block.
#[test]
fn damage(rt: HostRuntime) -> Result<(), Fail> {
    let alloc = rt.alloc();
    let mut arena = empty(alloc)?;
    let block = arena.put(1, &pointers(&Score([1; 20])))?;
    let lost = put_archive(&mut arena, &entry_of(1, 8197, &block), &HI)?;
    assert!(rt; damaged(alloc, &mut arena, &lost)? == 2);
    let shallow = put_archive(&mut arena, &entry_of(0, 8197, &block), &HI)?;
    assert!(rt; damaged(alloc, &mut arena, &shallow)? == 7);
    Ok(())
}
