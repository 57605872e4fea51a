//! Disks with arenas, blocks of bytes, and scores.
ghost use Rattle.std.specs.Prelude.{◌≡◌, ◌≤◌, length};

use fo_disk::{BLOCK, Disk, MemDisk};
use fo_image::Score;
use hex::decode_to_slice;
use std::alloc::Global;
use std::test::Fail;
use venti_store::Arena;

/// The head of an empty arena of 16 blocks.
pub(crate) const HEAD: &[u8] = b"FSARENA1\0\0\0\x10\0\0\0\0";

/// The SHA-1 of "hello".
pub(crate) const HELLO: &str = "aaf4c61ddcc5e8a2dabede0f3b482cd9aea9434d";

/// The score of these 40 digits.
pub(crate) fn score(digits: &str) -> Result<Score, Fail> {
    let mut bytes = [0; 20];
    decode_to_slice(digits, &mut bytes)?;
    Ok(Score(bytes))
}

/// A block that begins with these bytes.
fn padded(bytes: &[u8]) -> [u8; BLOCK]
    requires { length bytes.now ≤ 8192 }
    ensures { length result ≡ 8192 }
{
    let mut block = [0; BLOCK];
    block[..bytes.len()].copy_from_slice(bytes);
    block
}

/// Writes a block that begins with these bytes, and settles it.
pub(crate) fn write(disk: &mut MemDisk, at: u32, bytes: &[u8]) -> Result<(), Fail>
    requires { length bytes.now ≤ 8192 }
{
    if u64::from(at) < disk.blocks()? {
        disk.write(at, &padded(bytes))?;
        disk.sync()?;
    }
    Ok(())
}

/// A disk of 16 blocks whose first one begins with these bytes, and of which the calls of these numbers fail. It had 3 calls.
pub(crate) fn disk(alloc: Global, head: &[u8], fails: Vec<u64>) -> Result<MemDisk, Fail>
    requires { length head.now ≤ 8192 }
{
    let mut disk = MemDisk::new(alloc, 16, fails)?;
    write(&mut disk, 0, head)?;
    Ok(disk)
}

/// An empty arena of 32 blocks, whose disk had 5 calls.
pub(crate) fn wide(alloc: Global) -> Result<Arena<MemDisk>, Fail> {
    let mut disk = MemDisk::new(alloc, 32, Vec::new(alloc))?;
    write(&mut disk, 0, b"FSARENA1\0\0\0\x20\0\0\0\0")?;
    opened(alloc, disk)
}

/// The arena on this disk.
pub(crate) fn opened(alloc: Global, disk: MemDisk) -> Result<Arena<MemDisk>, Fail> {
    match Arena::open(alloc, disk) {
        Ok(arena) => Ok(arena),
        Err(refused) => Err(Fail::from(refused.why)),
    }
}

/// An empty arena of 16 blocks.
pub(crate) fn empty(alloc: Global) -> Result<Arena<MemDisk>, Fail> {
    opened(alloc, disk(alloc, HEAD, Vec::new(alloc))?)
}

/// An arena of 16 blocks whose one used place has these bytes, under the score of "hello". The calls of these numbers fail; it had 12.
pub(crate) fn stored(alloc: Global, bytes: &[u8], fails: Vec<u64>) -> Result<Arena<MemDisk>, Fail>
    requires { length bytes.now ≤ 8192 }
{
    let mut disk = disk(alloc, b"FSARENA1\0\0\0\x10\0\0\0\x01", fails)?;
    write(
        &mut disk,
        1,
        b"\xaa\xf4\xc6\x1d\xdc\xc5\xe8\xa2\xda\xbe\xde\x0f\x3b\x48\x2c\xd9\xae\xa9\x43\x4d\0\0\0\x05",
    )?;
    write(&mut disk, 2, bytes)?;
    opened(alloc, disk)
}

/// Whether these bytes are held under the score and the kind.
pub(crate) fn holds(
    alloc: Global,
    arena: &mut Arena<MemDisk>,
    score: &Score,
    kind: u8,
    bytes: &[u8],
) -> Result<bool, Fail> {
    let mut into = Vec::new(alloc);
    arena.get(score, kind, &mut into)?;
    Ok(into.as_slice() == bytes)
}
