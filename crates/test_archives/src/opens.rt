//! Archives that are found, and that are not.
use crate::blocks::{TOP, empty, root_of};
use fo_disk::MemDisk;
use fo_image::Score;
use fo_vac_open::{VacError, open_archive};
use std::alloc::Global;
use std::test::Fail;
use venti_store::{Arena, ArenaError};

/// Puts the root of an archive with this top block.
fn put_root(arena: &mut Arena<MemDisk>, top: &Score) -> Result<Score, Fail> {
    Ok(arena.put(16, &root_of(top))?)
}

/// Whether the archive of this score is that of epoch 12 and time 3456, of a root directory of mode 0777.
fn is_found(alloc: Global, arena: &mut Arena<MemDisk>, score: &Score) -> Result<bool, Fail> {
    let found = open_archive(alloc, arena, score)?;
    Ok((found.root.epoch, found.root.time, found.top.own.mode) == (12, 3456, 0x8000_01ff))
}

/// Whether what is held under this score is no archive.
fn is_bad(alloc: Global, arena: &mut Arena<MemDisk>, score: &Score) -> bool {
    matches!(open_archive(alloc, arena, score), Err(VacError::BadVac))
}

/// Whether no root is held under this score.
fn is_absent(alloc: Global, arena: &mut Arena<MemDisk>, score: &Score) -> bool {
    matches!(
        open_archive(alloc, arena, score),
        Err(VacError::Arena(ArenaError::Absent))
    )
}

/// An archive is found, with ample memory.
#[test]
fn ample(rt: HostRuntime) -> Result<(), Fail> {
    let alloc = rt.alloc();
    let mut arena = empty(alloc)?;
    let top = arena.put(17, &TOP)?;
    let score = put_root(&mut arena, &top)?;
    assert!(rt; is_found(alloc, &mut arena, &score)?);
    Ok(())
}

/// A score that was never put, and that of a top block.
#[test]
fn absent(rt: HostRuntime) -> Result<(), Fail> {
    let alloc = rt.alloc();
    let mut arena = empty(alloc)?;
    let top = arena.put(17, &TOP)?;
    assert!(rt; is_absent(alloc, &mut arena, &Score([1; 20])));
    assert!(rt; is_absent(alloc, &mut arena, &top));
    Ok(())
}

/// A root that is of another format, one whose top block is not held, and one whose top block is of another format.
#[test]
fn bad(rt: HostRuntime) -> Result<(), Fail> {
    let alloc = rt.alloc();
    let mut arena = empty(alloc)?;
    let other = arena.put(16, b"hello")?;
    let lost = put_root(&mut arena, &Score([1; 20]))?;
    let hello = arena.put(17, b"hello")?;
    let no_top = put_root(&mut arena, &hello)?;
    assert!(rt; is_bad(alloc, &mut arena, &other));
    assert!(rt; is_bad(alloc, &mut arena, &lost));
    assert!(rt; is_bad(alloc, &mut arena, &no_top));
    Ok(())
}
