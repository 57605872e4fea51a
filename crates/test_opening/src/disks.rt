//! Formatted disks in memory.
ghost use Rattle.std.specs.Prelude.{◌≡◌, true, length, IfOk};
ghost use Rattle.fo_disk.specs.Disk.{IsQuiet};
ghost use Rattle.fo_disk.specs.Memory.{holds_of};

use fo_base::Memory;
use fo_disk::{BLOCK, Disk, MemDisk};
use fo_format::format;
use std::alloc::Global;
use std::test::Fail;

/// A disk of so many blocks of zeros.
pub fn zeros(alloc: Global, blocks: u32, fails: Vec<u64>) -> Result<MemDisk, Memory>
    ensures quiet { IfOk result (λ m. IsQuiet (holds_of m)) }
    ensures count { IfOk result (λ m. length m.cells.items ≡ blocks) }
{
    MemDisk::new(alloc, blocks, fails)
}

/// Formats two disks.
fn made(alloc: Global, main: &mut MemDisk, arena: &mut MemDisk) -> bool
    requires quiet { IsQuiet (holds_of main.old) × IsQuiet (holds_of arena.old) }
    requires count { (length main.old.cells.items ≡ 64) × (length arena.old.cells.items ≡ 16) }
    ensures quiet { result ≡ true → IsQuiet (holds_of main.new) }
    ensures count { result ≡ true → length main.new.cells.items ≡ 64 }
{
    format(alloc, main, arena, 7).is_ok()
}

/// A disk of 64 blocks that was formatted, and fails at these calls. Formatting makes the first six.
pub fn formatted(alloc: Global, fails: Vec<u64>) -> Result<MemDisk, Fail>
    ensures quiet { IfOk result (λ m. IsQuiet (holds_of m)) }
    ensures count { IfOk result (λ m. length m.cells.items ≡ 64) }
{
    let mut main = zeros(alloc, 64, fails)?;
    let mut arena = zeros(alloc, 16, Vec::new(alloc))?;
    if !made(alloc, &mut main, &mut arena) {
        return Err(Fail::from(Memory));
    }
    Ok(main)
}

/// What a crash may leave of a disk of 64 blocks: the oldest version of each.
pub fn oldest(disk: &MemDisk) -> Result<MemDisk, Memory>
    requires { length disk.now.cells.items ≡ 64 }
    ensures quiet { IfOk result (λ m. IsQuiet (holds_of m)) }
    ensures count { IfOk result (λ m. length m.cells.items ≡ 64) }
{
    disk.image(&[0; 64])
}

/// Gives bytes of a block these values, each by its place.
fn changed(block: &mut [u8], bytes: &[(usize, u8)])
    requires { length block.old ≡ 8192 }
    ensures { length block.new ≡ 8192 }
{
    for (place, byte) in bytes {
        if *place < BLOCK {
            block[*place] = *byte;
        }
    }
}

/// Gives bytes of a block of a disk of 64 blocks these values.
fn change<D: Disk>(disk: &mut D, at: u32, bytes: &[(usize, u8)]) -> bool
    requires { D.size disk.old ≡ 64 }
    ensures { D.size disk.new ≡ 64 }
{
    if 64 <= at {
        return false;
    }
    let mut block = [0; BLOCK];
    let read = disk.read(at, &mut block).is_ok();
    changed(&mut block, bytes);
    read && disk.write(at, &block).is_ok() && disk.sync().is_ok()
}

/// A disk of 64 blocks that was formatted, and of which a block has other bytes.
pub fn damaged(alloc: Global, at: u32, bytes: &[(usize, u8)]) -> Result<MemDisk, Fail>
    ensures quiet { IfOk result (λ m. IsQuiet (holds_of m)) }
    ensures count { IfOk result (λ m. length m.cells.items ≡ 64) }
{
    let mut disk = formatted(alloc, Vec::new(alloc))?;
    if !change(&mut disk, at, bytes) {
        return Err(Fail::from(Memory));
    }
    let image = oldest(&disk)?;
    Ok(image)
}
