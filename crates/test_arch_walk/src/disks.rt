//! Disks in memory of 64 blocks, by their bytes, and blocks over them.
ghost use Rattle.std.specs.Prelude.{◌≡◌, length, IfOk};
ghost use Rattle.fo_disk.specs.Disk.{IsQuiet};
ghost use Rattle.fo_disk.specs.Memory.{holds_of};

use fo_base::Memory;
use fo_cache::Cache;
use fo_devices::Devices;
use fo_disk::{BLOCK, Disk, MemDisk};
use fo_opening::open;
use std::alloc::Global;
use std::test::Fail;
use venti_store::Arena;

/// An empty arena of 16 blocks.
pub(crate) fn arena(alloc: Global) -> Result<Arena<MemDisk>, Fail> {
    let mut disk = MemDisk::new(alloc, 16, Vec::new(alloc))?;
    let mut head = [0; BLOCK];
    head[..8].copy_from_slice(b"FSARENA1");
    head[11] = 16;
    if 0 < disk.blocks()? {
        disk.write(0, &head)?;
    }
    disk.sync()?;
    match Arena::open(alloc, disk) {
        Ok(arena) => Ok(arena),
        Err(refused) => Err(Fail::from(refused.why)),
    }
}

/// Gives bytes of a block these values, as far as the block goes.
fn write(block: &mut [u8], place: usize, bytes: &[u8])
    requires { length block.old ≡ 8192 }
    ensures { length block.new ≡ 8192 }
{
    for (i, byte) in bytes.iter().enumerate() {
        let at = place.wrapping_add(i);
        if at < block.len() {
            block[at] = *byte;
        }
    }
}

/// Gives bytes of a block of a disk of 64 blocks these values, if there is such a block.
fn put<D: Disk>(disk: &mut D, at: u32, place: usize, bytes: &[u8]) -> bool
    requires { D.size disk.old ≡ 64 }
    ensures { D.size disk.new ≡ 64 }
{
    if 64 <= at {
        return false;
    }
    let mut block = [0; BLOCK];
    let read = disk.read(at, &mut block).is_ok();
    write(&mut block, place, bytes);
    read && disk.write(at, &block).is_ok()
}

/// Gives bytes of blocks these values, by block and place.
fn put_all<D: Disk>(disk: &mut D, rows: &[(u32, usize, &[u8])]) -> bool
    requires { D.size disk.old ≡ 64 }
    ensures { D.size disk.new ≡ 64 }
{
    for (at, place, bytes) in rows {
        if !put(disk, *at, *place, bytes) {
            return false;
        }
    }
    disk.sync().is_ok()
}

/// A disk of 64 blocks, of which each has one version: the oldest.
fn oldest(disk: &MemDisk) -> Result<MemDisk, Memory>
    requires { length disk.now.cells.items ≡ 64 }
    ensures { IfOk result (λ m. IsQuiet (holds_of m)) }
{
    disk.image(&[0; 64])
}

/// A disk of 64 blocks with these bytes, and zeros. Later ones come in place of earlier ones.
fn disk(
    alloc: Global,
    rows: &[(u32, usize, &[u8])],
    more: &[(u32, usize, &[u8])],
) -> Result<MemDisk, Fail>
    ensures { IfOk result (λ m. IsQuiet (holds_of m)) }
{
    let mut disk = MemDisk::new(alloc, 64, Vec::new(alloc))?;
    if !put_all(&mut disk, rows) || !put_all(&mut disk, more) {
        return Err(Fail::from(Memory));
    }
    Ok(oldest(&disk)?)
}

/// A cache over the disk with these bytes.
fn cache(
    alloc: Global,
    rows: &[(u32, usize, &[u8])],
    more: &[(u32, usize, &[u8])],
) -> Result<Cache<MemDisk>, Fail> {
    let main = disk(alloc, rows, more)?;
    match open(alloc, main) {
        Ok(cache) => Ok(cache),
        Err(refused) => Err(Fail::from(refused.why)),
    }
}

/// The blocks of the disk with these bytes, with this arena beside them.
pub(crate) fn devices(
    alloc: Global,
    arena: Arena<MemDisk>,
    rows: &[(u32, usize, &[u8])],
    more: &[(u32, usize, &[u8])],
) -> Result<Devices<MemDisk, MemDisk>, Fail> {
    match cache(alloc, rows, more) {
        Ok(cache) => Ok(Devices::new(cache, arena)),
        Err(fail) => Err(fail),
    }
}

/// The arena alone.
pub(crate) fn arena_of(on: Devices<MemDisk, MemDisk>) -> Arena<MemDisk> {
    let Devices { cache, arena } = on;
    let _main = cache.close();
    arena
}
