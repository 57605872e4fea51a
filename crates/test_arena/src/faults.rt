//! Each call of the device fails in turn.
use crate::blocks::{HEAD, HELLO, disk, holds, opened, score, stored};
use fo_disk::MemDisk;
use std::alloc::Global;
use std::test::Fail;
use venti_store::{Arena, ArenaError};

/// Puts a block and settles it.
fn settles(arena: &mut Arena<MemDisk>, bytes: &[u8; 5]) -> bool {
    arena.put(0, bytes).is_ok() && arena.sync().is_ok()
}

/// Whether both blocks are held.
fn has_both(alloc: Global, mut arena: Arena<MemDisk>) -> Result<bool, Fail> {
    let world = score("7c211433f02071597741e6ff5a8ea34789abbf43")?;
    Ok(
        holds(alloc, &mut arena, &score(HELLO)?, 0, b"hello")?
            && holds(alloc, &mut arena, &world, 0, b"world")?,
    )
}

/// Puts two blocks, each once more where it fails, and opens the arena again: whether one failed, and both are held.
fn loses_nothing(alloc: Global, mut arena: Arena<MemDisk>) -> Result<bool, Fail> {
    let hello = settles(&mut arena, b"hello");
    let again = hello || settles(&mut arena, b"hello");
    let world = settles(&mut arena, b"world");
    let then = world || settles(&mut arena, b"world");
    Ok(again && then && !(hello && world) && has_both(alloc, opened(alloc, arena.close())?)?)
}

/// An opened arena of which the call of this number fails.
fn failing(alloc: Global, call: u64) -> Result<Arena<MemDisk>, Fail> {
    opened(alloc, disk(alloc, HEAD, vec![in alloc; call]?)?)
}

/// Both syncs have five calls: the block, its line, a sync, the head, and a sync.
#[test]
fn each(rt: HostRuntime) -> Result<(), Fail> {
    for call in 5..15 {
        assert!(rt; loses_nothing(rt.alloc(), failing(rt.alloc(), call)?)?);
    }
    Ok(())
}

/// Whether "hello" is refused once, as the device can't be read, and then got.
fn gets_then(alloc: Global, mut arena: Arena<MemDisk>) -> Result<bool, Fail> {
    let hello = score(HELLO)?;
    let mut into = Vec::new(alloc);
    let failed = matches!(arena.get(&hello, 0, &mut into), Err(ArenaError::ArenaRead));
    Ok(failed && into.is_empty() && holds(alloc, &mut arena, &hello, 0, b"hello")?)
}

/// Whether "hello" is refused once, and then put, which takes no place more.
fn puts_then(mut arena: Arena<MemDisk>) -> bool {
    let failed = matches!(arena.put(0, b"hello"), Err(ArenaError::ArenaRead));
    failed && arena.put(0, b"hello").is_ok() && arena.used() == 1
}

/// The read of a place fails, as its block is got and as it is put again.
#[test]
fn reads(rt: HostRuntime) -> Result<(), Fail> {
    let alloc = rt.alloc();
    assert!(rt; gets_then(alloc, stored(alloc, b"hello", vec![in alloc; 12]?)?)?);
    assert!(rt; puts_then(stored(alloc, b"hello", vec![in alloc; 12]?)?));
    Ok(())
}
