//! Blocks are fetched from an arena.
ghost use Rattle.std.specs.Prelude.{◌≡◌, length};

use fo_devices::fetch_block;
use fo_disk::{BLOCK, Disk, MemDisk};
use fo_image::Score;
use fo_ports::BlockError;
use hex::decode_to_slice;
use std::alloc::Global;
use std::test::Fail;
use venti_store::Arena;

/// The SHA-1 of "hello".
const HELLO: &str = "aaf4c61ddcc5e8a2dabede0f3b482cd9aea9434d";

/// The SHA-1 of no bytes.
const NOTHING: &str = "da39a3ee5e6b4b0d3255bfef95601890afd80709";

/// The score of these 40 digits.
fn score(digits: &str) -> Result<Score, Fail> {
    let mut bytes = [0; 20];
    decode_to_slice(digits, &mut bytes)?;
    Ok(Score(bytes))
}

/// The head of an empty arena of 16 blocks.
fn head() -> [u8; BLOCK]
    ensures { length result ≡ 8192 }
{
    let mut block = [0; BLOCK];
    block[0..16].copy_from_slice(b"FSARENA1\0\0\0\x10\0\0\0\0");
    block
}

/// Writes the head of an arena, and settles it.
fn write_head(disk: &mut MemDisk) -> Result<(), Fail> {
    if 0 < disk.blocks()? {
        disk.write(0, &head())?;
        disk.sync()?;
    }
    Ok(())
}

/// The arena on this disk.
fn opened(alloc: Global, disk: MemDisk) -> Result<Arena<MemDisk>, Fail> {
    match Arena::open(alloc, disk) {
        Ok(arena) => Ok(arena),
        Err(refused) => Err(Fail::from(refused.why)),
    }
}

/// An empty arena of 16 blocks.
fn empty(alloc: Global) -> Result<Arena<MemDisk>, Fail> {
    let mut disk = MemDisk::new(alloc, 16, Vec::new(alloc))?;
    write_head(&mut disk)?;
    opened(alloc, disk)
}

/// A block of sevens.
fn sevens() -> [u8; BLOCK]
    ensures { length result ≡ 8192 }
{
    [7; BLOCK]
}

/// Whether these bytes are held in such a block: they, and then zeros.
fn begins(block: &[u8], bytes: &[u8]) -> bool {
    match block.strip_prefix(bytes) {
        Some(rest) => rest.iter().all(|b| *b == 0),
        None => false,
    }
}

/// Whether "hello" is fetched as data: it, and zeros behind it.
fn fetches_hello(alloc: Global, arena: &mut Arena<MemDisk>) -> Result<bool, Fail> {
    let mut block = sevens();
    fetch_block(alloc, arena, &score(HELLO)?, 0, &mut block)?;
    Ok(begins(&block, b"hello"))
}

/// Each call that takes memory, with ample memory.
#[test]
fn ample(rt: HostRuntime) -> Result<(), Fail> {
    let alloc = rt.alloc();
    let mut arena = empty(alloc)?;
    arena.put(0, b"hello")?;
    assert!(rt; fetches_hello(alloc, &mut arena)?);
    Ok(())
}

/// Whether the block has the score of no bytes in its first and its last pointer, and 12 zeros behind that.
fn are_nil(block: &[u8], nothing: &[u8]) -> bool
    requires { length block.now ≡ 8192 }
{
    &block[0..20] == nothing && &block[8160..8180] == nothing && begins(&block[8180..8192], b"")
}

/// The empty block as one of pointers.
#[test]
fn pointers(rt: HostRuntime) -> Result<(), Fail> {
    let alloc = rt.alloc();
    let mut arena = empty(alloc)?;
    let nothing = score(NOTHING)?;
    let mut block = sevens();
    fetch_block(alloc, &mut arena, &nothing, 1, &mut block)?;
    assert!(rt; are_nil(&block, &nothing.0));
    Ok(())
}

/// Whether the fetch is refused as damaged, and leaves the block.
fn refuses(alloc: Global, arena: &mut Arena<MemDisk>, score: &Score, kind: u8) -> bool {
    let mut block = sevens();
    match fetch_block(alloc, arena, score, kind, &mut block) {
        Err(BlockError::Damaged(at)) => at == 1 && block.iter().all(|b| *b == 7),
        _ => false,
    }
}

/// A score that was never put, and one that was put under another kind.
#[test]
fn absent(rt: HostRuntime) -> Result<(), Fail> {
    let alloc = rt.alloc();
    let mut arena = empty(alloc)?;
    assert!(rt; refuses(alloc, &mut arena, &Score([1; 20]), 0));
    arena.put(0, b"hello")?;
    assert!(rt; refuses(alloc, &mut arena, &score(HELLO)?, 8));
    Ok(())
}
