//! What is put is held.
use crate::blocks::{HELLO, empty, holds, opened, score, wide};
use fo_disk::MemDisk;
use fo_image::Score;
use std::alloc::Global;
use std::test::Fail;
use venti_store::{Arena, ArenaError};

/// Puts "hello", and gets it before and after a sync.
fn puts_hello(alloc: Global, arena: &mut Arena<MemDisk>) -> Result<bool, Fail> {
    let hello = score(HELLO)?;
    let put = arena.put(0, b"hello")? == hello;
    let waits = holds(alloc, arena, &hello, 0, b"hello")?;
    arena.sync()?;
    Ok(put && waits && holds(alloc, arena, &hello, 0, b"hello")?)
}

/// Whether "hello" is the only block in use.
fn has_hello(alloc: Global, mut arena: Arena<MemDisk>) -> Result<bool, Fail> {
    Ok(
        (arena.used(), arena.places()) == (1, 14)
            && holds(alloc, &mut arena, &score(HELLO)?, 0, b"hello")?,
    )
}

/// Each call that takes memory, with ample memory.
#[test]
fn ample(rt: HostRuntime) -> Result<(), Fail> {
    let alloc = rt.alloc();
    let mut arena = empty(alloc)?;
    assert!(rt; puts_hello(alloc, &mut arena)?);
    assert!(rt; has_hello(alloc, opened(alloc, arena.close())?)?);
    Ok(())
}

/// Whether nothing is held under the score and the kind.
fn lacks(alloc: Global, arena: &mut Arena<MemDisk>, score: &Score, kind: u8) -> bool {
    let mut into = Vec::new(alloc);
    matches!(arena.get(score, kind, &mut into), Err(ArenaError::Absent))
}

/// A score that was never put, and one that was put under another kind.
#[test]
fn absent(rt: HostRuntime) -> Result<(), Fail> {
    let alloc = rt.alloc();
    let mut arena = empty(alloc)?;
    assert!(rt; lacks(alloc, &mut arena, &Score([1; 20]), 0));
    arena.put(0, b"hello")?;
    assert!(rt; lacks(alloc, &mut arena, &score(HELLO)?, 8));
    Ok(())
}

/// The empty block is held, under any kind, and takes no place; a block that is held takes none again.
#[test]
fn held(rt: HostRuntime) -> Result<(), Fail> {
    let alloc = rt.alloc();
    let nothing = score("da39a3ee5e6b4b0d3255bfef95601890afd80709")?;
    let mut arena = empty(alloc)?;
    assert!(rt; holds(alloc, &mut arena, &nothing, 3, b"")?);
    assert!(rt; arena.put(16, b"")? == nothing);
    assert_eq!(rt; arena.used(), 0);
    arena.put(0, b"hello")?;
    arena.put(0, b"hello")?;
    assert_eq!(rt; arena.used(), 1);
    Ok(())
}

/// A block that was just put is got from memory: the disk has had the calls that made and opened it alone.
#[test]
fn at_hand(rt: HostRuntime) -> Result<(), Fail> {
    let alloc = rt.alloc();
    let mut arena = empty(alloc)?;
    arena.put(0, b"hello")?;
    assert!(rt; holds(alloc, &mut arena, &score(HELLO)?, 0, b"hello")?);
    assert_eq!(rt; arena.close().calls(), 5);
    Ok(())
}

/// A block that was held before its arena was opened, and is put again, is read once: by the put, which compares it.
#[test]
fn held_at_hand(rt: HostRuntime) -> Result<(), Fail> {
    let alloc = rt.alloc();
    let mut arena = empty(alloc)?;
    arena.put(0, b"hello")?;
    arena.sync()?;
    let mut arena = opened(alloc, arena.close())?;
    arena.put(0, b"hello")?;
    assert!(rt; holds(alloc, &mut arena, &score(HELLO)?, 0, b"hello")?);
    assert_eq!(rt; arena.close().calls(), 14);
    Ok(())
}

/// Puts so many blocks of one byte.
fn fill(arena: &mut Arena<MemDisk>, blocks: u8) -> Result<(), Fail> {
    for byte in 0..blocks {
        arena.put(0, &[byte])?;
    }
    Ok(())
}

/// How many calls the disk had once seventeen blocks were put, of which the first was put again before the last, and all were settled,
/// and this one was got.
fn calls_to_get(alloc: Global, score: &Score, byte: u8) -> Result<u64, Fail> {
    let mut arena = wide(alloc)?;
    fill(&mut arena, 16)?;
    arena.put(0, &[0])?;
    arena.put(0, &[16])?;
    arena.sync()?;
    if !holds(alloc, &mut arena, score, 0, &[byte])? {
        return Ok(0);
    }
    Ok(arena.close().calls())
}

/// The last sixteen blocks that were put are got from memory, in the order of their last puts.
#[test]
fn recent(rt: HostRuntime) -> Result<(), Fail> {
    let alloc = rt.alloc();
    let first = score("5ba93c9db0cff93f52b521d7420e43f6eda2784f")?;
    assert_eq!(rt; calls_to_get(alloc, &first, 0)?, 26);
    let second = score("bf8b4530d8d246dd74ac53a13471bba17941dff7")?;
    assert_eq!(rt; calls_to_get(alloc, &second, 1)?, 27);
    Ok(())
}

/// No place is left in an arena of 16 blocks that has 14 blocks.
#[test]
fn full(rt: HostRuntime) -> Result<(), Fail> {
    let mut arena = empty(rt.alloc())?;
    fill(&mut arena, 14)?;
    assert!(rt; matches!(arena.put(0, b"hello"), Err(ArenaError::ArenaFull)));
    assert!(rt; arena.put(0, &[3]).is_ok());
    assert_eq!(rt; arena.used(), 14);
    Ok(())
}
