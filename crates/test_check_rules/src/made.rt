//! An image made by hand in a device of 64 blocks: a root directory with a file `f` of three leaves and a hole, and a directory `d` with a
//! file `g` in it. Blocks 3 to 12 are used.
use fo_check::CheckError;
use fo_check_image::{Report, check};
use fo_disk::{BLOCK, Disk, MemDisk};
use fo_format::format;
use std::alloc::Global;
use std::test::Fail;

/// What stands where beside a fresh image, by block and place.
const TREE: &[(u32, usize, &[u8])] = &[
    // The limit of file numbers.
    (1, 25, b"\x04"),
    // The labels of blocks 4 to 12.
    (2, 56, b"\x01\x08\0\0\0\x01\xff\xff\xff\xff\0\0\0\x20"),
    (2, 70, b"\x01\x00\0\0\0\x01\xff\xff\xff\xff\0\0\0\x21"),
    (2, 84, b"\x01\x01\0\0\0\x01\xff\xff\xff\xff\0\0\0\x22"),
    (2, 98, b"\x01\x00\0\0\0\x01\xff\xff\xff\xff\0\0\0\x22"),
    (2, 112, b"\x01\x00\0\0\0\x01\xff\xff\xff\xff\0\0\0\x22"),
    (2, 126, b"\x01\x00\0\0\0\x01\xff\xff\xff\xff\0\0\0\x22"),
    (2, 140, b"\x01\x08\0\0\0\x01\xff\xff\xff\xff\0\0\0\x24"),
    (2, 154, b"\x01\x00\0\0\0\x01\xff\xff\xff\xff\0\0\0\x25"),
    (2, 168, b"\x01\x00\0\0\0\x01\xff\xff\xff\xff\0\0\0\x26"),
    // Sizes and tops of the root's entries and records.
    (3, 42, b"\x20"),
    (3, 63, b"\x05"),
    (3, 82, b"\x20"),
    (3, 103, b"\x06"),
    // The first entry of `f`, and both of `d`: from the flags to the size, and the top.
    (4, 4, b"\x01\x01\0\0\0\0\0\x22\0\0\0\0\0\0\x80\0"),
    (4, 39, b"\x07"),
    (4, 84, b"\x03\0\0\0\0\0\0\x24\0\0\0\0\0\0\x20\0"),
    (4, 119, b"\x0b"),
    (4, 124, b"\x01\0\0\0\0\0\0\x25\0\0\0\0\0\0\x20\0"),
    (4, 159, b"\x0c"),
    // Two records of 44 bytes: number, slot, the high byte of the mode, and texts.
    (5, 0, b"\0\x02\0\x58\0\x2c\0\0\0\x01\0\0\0\0"),
    (
        5,
        34,
        b"\x01f\x03adm\x03adm\x03adm\0\x2c\0\0\0\x02\0\0\0\x01",
    ),
    (5, 66, b"\x80"),
    (5, 78, b"\x01d\x03adm\x03adm\x03adm"),
    // The leaves of `f`: the third is a hole.
    (6, 19, b"\x08"),
    (6, 39, b"\x09"),
    (6, 79, b"\x0a"),
    // The entry of `g` with its five bytes, and its record.
    (10, 4, b"\x01\0\0\0\0\0\0\x26\0\0\0\0\0\0\0\x05"),
    (10, 39, b"\x0d"),
    (11, 0, b"\0\x01\0\x2c\0\x2c\0\0\0\x03\0\0\0\0"),
    (11, 34, b"\x01g\x03adm\x03adm\x03adm"),
];

/// Gives bytes of a block these values, as far as the block goes.
pub(crate) fn write(block: &mut [u8], place: usize, bytes: &[u8]) {
    for (i, byte) in bytes.iter().enumerate() {
        let at = place.wrapping_add(i);
        if at < block.len() {
            block[at] = *byte;
        }
    }
}

/// Gives bytes of a block of a device these values.
pub(crate) fn put(disk: &mut MemDisk, at: u32, place: usize, bytes: &[u8]) -> Result<(), Fail> {
    if disk.blocks()? <= u64::from(at) {
        return Ok(());
    }
    let mut block = [0; BLOCK];
    disk.read(at, &mut block)?;
    write(&mut block, place, bytes);
    disk.write(at, &block)?;
    disk.sync()?;
    Ok(())
}

/// Gives all these bytes of a device these values.
pub(crate) fn put_all(disk: &mut MemDisk, all: &[(u32, usize, &[u8])]) -> Result<(), Fail> {
    for (at, place, bytes) in all {
        put(disk, *at, *place, bytes)?;
    }
    Ok(())
}

/// Devices that were just formatted, the main one of so many blocks.
pub(crate) fn fresh(alloc: Global, blocks: u32) -> Result<(MemDisk, MemDisk), Fail> {
    let mut main = MemDisk::new(alloc, blocks, Vec::new(alloc))?;
    let mut arena = MemDisk::new(alloc, 16, Vec::new(alloc))?;
    format(alloc, &mut main, &mut arena, 7)?;
    Ok((main, arena))
}

/// The devices of the image.
pub(crate) fn sound(alloc: Global) -> Result<(MemDisk, MemDisk), Fail> {
    let (mut main, arena) = fresh(alloc, 64)?;
    put_all(&mut main, TREE)?;
    Ok((main, arena))
}

/// What the check answers of the image once these bytes were changed, by block and place.
pub(crate) fn answer(
    alloc: Global,
    changes: &[(u32, usize, &[u8])],
) -> Result<Result<Report, CheckError>, Fail> {
    let (mut main, mut arena) = sound(alloc)?;
    put_all(&mut main, changes)?;
    Ok(check(alloc, &mut main, &mut arena))
}

/// Whether the check then names this rule and this block.
pub(crate) fn names(
    alloc: Global,
    changes: &[(u32, usize, &[u8])],
    rule: u8,
    block: u32,
) -> Result<bool, Fail> {
    Ok(answer(alloc, changes)? == Err(CheckError::Unsound { rule, block }))
}

/// Whether the image is sound then, with these numbers.
pub(crate) fn is_sound(
    alloc: Global,
    changes: &[(u32, usize, &[u8])],
    used: u32,
    leaked: u32,
) -> Result<bool, Fail> {
    let wanted = Report {
        blocks: 64,
        used,
        leaked,
        snapshots: 0,
    };
    Ok(answer(alloc, changes)? == Ok(wanted))
}

/// Each change of one byte, by its block and its place, breaks this rule at the block beside it. The first that doesn't, else none.
pub(crate) fn each(
    alloc: Global,
    rule: u8,
    changes: &[(u32, usize, u8, u32)],
) -> Result<Option<(u32, usize, u8, u32)>, Fail> {
    for change in changes {
        let (at, place, byte, block) = *change;
        if !names(alloc, &[(at, place, &[byte])], rule, block)? {
            return Ok(Some(*change));
        }
    }
    Ok(None)
}
