//! An image made by hand, in a device of 64 blocks: a root directory with a file `f` of three leaves and a hole, and a directory `d` with
//! a file `g` in it.
use fo_disk::{BLOCK, Disk, MemDisk};
use std::alloc::Global;
use std::test::Fail;

/// Gives bytes of a block these values, as far as the block goes.
fn write(block: &mut [u8], place: usize, bytes: &[u8]) {
    for (i, byte) in bytes.iter().enumerate() {
        let at = place.wrapping_add(i);
        if at < block.len() {
            block[at] = *byte;
        }
    }
}

/// Gives bytes of a block of a device these values.
pub(crate) fn put(disk: &mut MemDisk, at: u32, place: usize, bytes: &[u8]) -> Result<(), Fail> {
    if disk.blocks()? <= u64::from(at) {
        return Ok(());
    }
    let mut block = [0; BLOCK];
    disk.read(at, &mut block)?;
    write(&mut block, place, bytes);
    disk.write(at, &block)?;
    disk.sync()?;
    Ok(())
}

/// A live label of epoch 1.
fn label(disk: &mut MemDisk, at: u32, kind: u8, tag: u8) -> Result<(), Fail> {
    let bytes = [1, kind, 0, 0, 0, 1, 255, 255, 255, 255, 0, 0, 0, tag];
    put(disk, 2, 14usize.wrapping_mul(at as usize), &bytes)
}

/// An entry in use, of a size below 2^16.
fn entry(
    disk: &mut MemDisk,
    at: u32,
    place: usize,
    flags: u8,
    depth: u8,
    tag: u8,
    size: u16,
    top: u8,
) -> Result<(), Fail> {
    let [high, low] = size.to_be_bytes();
    let mut bytes = [0; 40];
    bytes[4] = flags;
    bytes[5] = depth;
    bytes[11] = tag;
    bytes[18] = high;
    bytes[19] = low;
    if top != 0 {
        bytes[39] = top.wrapping_add(1);
    }
    put(disk, at, place, &bytes)
}

/// The record of a file with a name of one letter: 44 bytes.
fn record(
    disk: &mut MemDisk,
    at: u32,
    place: usize,
    name: u8,
    number: u8,
    slot: u8,
    dir: bool,
) -> Result<(), Fail> {
    let mut bytes = [0; 44];
    bytes[1] = 44;
    bytes[5] = number;
    bytes[9] = slot;
    if dir {
        bytes[18] = 128;
    }
    bytes[30] = 1;
    bytes[31] = name;
    for user in [32, 36, 40] {
        bytes[user..user + 4].copy_from_slice(&[3, b'a', b'd', b'm']);
    }
    put(disk, at, place, &bytes)
}

fn pointer(disk: &mut MemDisk, at: u32, i: usize, to: u8) -> Result<(), Fail> {
    put(
        disk,
        at,
        20usize.wrapping_mul(i).wrapping_add(19),
        &[to.wrapping_add(1)],
    )
}

fn labels(disk: &mut MemDisk) -> Result<(), Fail> {
    label(disk, 4, 8, 32)?;
    label(disk, 5, 0, 33)?;
    label(disk, 6, 1, 34)?;
    label(disk, 7, 0, 34)?;
    label(disk, 8, 0, 34)?;
    label(disk, 9, 0, 34)?;
    label(disk, 10, 8, 36)?;
    label(disk, 11, 0, 37)?;
    label(disk, 12, 0, 38)
}

fn root_directory(disk: &mut MemDisk) -> Result<(), Fail> {
    entry(disk, 3, 24, 3, 0, 32, 8192, 4)?;
    entry(disk, 3, 64, 1, 0, 33, 8192, 5)?;
    entry(disk, 4, 0, 1, 1, 34, 32768, 6)?;
    entry(disk, 4, 80, 3, 0, 36, 8192, 10)?;
    entry(disk, 4, 120, 1, 0, 37, 8192, 11)?;
    put(disk, 5, 0, &[0, 2, 0, 88])?;
    record(disk, 5, 4, b'f', 1, 0, false)?;
    record(disk, 5, 48, b'd', 2, 1, true)
}

fn below(disk: &mut MemDisk) -> Result<(), Fail> {
    pointer(disk, 6, 0, 7)?;
    pointer(disk, 6, 1, 8)?;
    pointer(disk, 6, 3, 9)?;
    entry(disk, 10, 0, 1, 0, 38, 5, 12)?;
    put(disk, 11, 0, &[0, 1, 0, 44])?;
    record(disk, 11, 4, b'g', 3, 0, false)
}

/// A second directory `e` with the number and the block of entries of `d`, and a record `g` of its own in block 13.
pub(crate) fn twin(disk: &mut MemDisk) -> Result<(), Fail> {
    label(disk, 13, 0, 37)?;
    entry(disk, 4, 160, 3, 0, 36, 8192, 10)?;
    entry(disk, 4, 200, 1, 0, 37, 8192, 13)?;
    put(disk, 5, 0, &[0, 3, 0, 132])?;
    record(disk, 5, 92, b'e', 2, 2, true)?;
    put(disk, 13, 0, &[0, 1, 0, 44])?;
    record(disk, 13, 4, b'g', 3, 0, false)
}

/// The sound image: blocks 3 to 12 are used.
pub(crate) fn made(alloc: Global, disk: &mut MemDisk, arena: &mut MemDisk) -> Result<(), Fail> {
    fo_format::format(alloc, disk, arena, 7)?;
    put(disk, 1, 25, &[4])?;
    labels(disk)?;
    root_directory(disk)?;
    below(disk)
}
