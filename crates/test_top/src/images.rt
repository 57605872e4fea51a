//! Images made by hand in files of the system, byte by byte from docs/FORMATS.md, and what `flchk` says of them.

use fo_disk::{BLOCK, Disk, FileDisk};
use fo_links::MemSink;
use fo_tools::{ToolEnd, flchk, flfmt};
use std::fs;
use std::fs::File;
use std::test::Fail;

/// A root directory with a file `f` of three leaves and a hole, and a directory `d` with a file `g` in it: what stands where beside a
/// fresh image, by block and place. Blocks 3 to 12 are used.
const TREE: &[(u32, usize, &[u8])] = &[
    // The limit of file numbers.
    (1, 25, b"\x04"),
    // The labels of blocks 4 to 12.
    (2, 56, b"\x01\x08\0\0\0\x01\xff\xff\xff\xff\0\0\0\x20"),
    (2, 70, b"\x01\x00\0\0\0\x01\xff\xff\xff\xff\0\0\0\x21"),
    (2, 84, b"\x01\x01\0\0\0\x01\xff\xff\xff\xff\0\0\0\x22"),
    (2, 98, b"\x01\x00\0\0\0\x01\xff\xff\xff\xff\0\0\0\x22"),
    (2, 112, b"\x01\x00\0\0\0\x01\xff\xff\xff\xff\0\0\0\x22"),
    (2, 126, b"\x01\x00\0\0\0\x01\xff\xff\xff\xff\0\0\0\x22"),
    (2, 140, b"\x01\x08\0\0\0\x01\xff\xff\xff\xff\0\0\0\x24"),
    (2, 154, b"\x01\x00\0\0\0\x01\xff\xff\xff\xff\0\0\0\x25"),
    (2, 168, b"\x01\x00\0\0\0\x01\xff\xff\xff\xff\0\0\0\x26"),
    // Sizes and tops of the root's entries and records.
    (3, 42, b"\x20"),
    (3, 63, b"\x05"),
    (3, 82, b"\x20"),
    (3, 103, b"\x06"),
    // The first entry of `f`, and both of `d`: from the flags to the size, and the top.
    (4, 4, b"\x01\x01\0\0\0\0\0\x22\0\0\0\0\0\0\x80\0"),
    (4, 39, b"\x07"),
    (4, 84, b"\x03\0\0\0\0\0\0\x24\0\0\0\0\0\0\x20\0"),
    (4, 119, b"\x0b"),
    (4, 124, b"\x01\0\0\0\0\0\0\x25\0\0\0\0\0\0\x20\0"),
    (4, 159, b"\x0c"),
    // Two records of 44 bytes: number, slot, the high byte of the mode, and texts.
    (5, 0, b"\0\x02\0\x58\0\x2c\0\0\0\x01\0\0\0\0"),
    (
        5,
        34,
        b"\x01f\x03adm\x03adm\x03adm\0\x2c\0\0\0\x02\0\0\0\x01",
    ),
    (5, 66, b"\x80"),
    (5, 78, b"\x01d\x03adm\x03adm\x03adm"),
    // The leaves of `f`: the third is a hole.
    (6, 19, b"\x08"),
    (6, 39, b"\x09"),
    (6, 79, b"\x0a"),
    // The entry of `g` with its five bytes, and its record.
    (10, 4, b"\x01\0\0\0\0\0\0\x26\0\0\0\0\0\0\0\x05"),
    (10, 39, b"\x0d"),
    (11, 0, b"\0\x01\0\x2c\0\x2c\0\0\0\x03\0\0\0\0"),
    (11, 34, b"\x01g\x03adm\x03adm\x03adm"),
];

/// A root directory of 200 empty files, without its leaves: two of entries, in blocks 5 and 6 below a block of pointers in block 4, and
/// three of records, in blocks 8 to 10 below block 7.
const WIDE: &[(u32, usize, &[u8])] = &[
    (1, 25, b"\xc9"),
    (2, 56, b"\x01\x09\0\0\0\x01\xff\xff\xff\xff\0\0\0\x20"),
    (2, 70, b"\x01\x08\0\0\0\x01\xff\xff\xff\xff\0\0\0\x20"),
    (2, 84, b"\x01\x08\0\0\0\x01\xff\xff\xff\xff\0\0\0\x20"),
    (2, 98, b"\x01\x01\0\0\0\x01\xff\xff\xff\xff\0\0\0\x21"),
    (2, 112, b"\x01\x00\0\0\0\x01\xff\xff\xff\xff\0\0\0\x21"),
    (2, 126, b"\x01\x00\0\0\0\x01\xff\xff\xff\xff\0\0\0\x21"),
    (2, 140, b"\x01\x00\0\0\0\x01\xff\xff\xff\xff\0\0\0\x21"),
    // Depths, sizes and tops of the root's entries and records.
    (3, 29, b"\x01"),
    (3, 42, b"\x40"),
    (3, 63, b"\x05"),
    (3, 69, b"\x01"),
    (3, 82, b"\x60"),
    (3, 103, b"\x08"),
    (4, 19, b"\x06"),
    (4, 39, b"\x07"),
    (7, 19, b"\x09"),
    (7, 39, b"\x0a"),
    (7, 59, b"\x0b"),
];

/// Gives bytes of a block these values, as far as the block goes.
fn write(block: &mut [u8], place: usize, bytes: &[u8]) {
    for (i, byte) in bytes.iter().enumerate() {
        let at = place.wrapping_add(i);
        if at < block.len() {
            block[at] = *byte;
        }
    }
}

/// Gives bytes of a block of a device these values.
fn put<D: Disk>(disk: &mut D, at: u32, place: usize, bytes: &[u8]) -> Result<(), Fail> {
    if disk.blocks()? <= u64::from(at) {
        return Ok(());
    }
    let mut block = [0; BLOCK];
    disk.read(at, &mut block)?;
    write(&mut block, place, bytes);
    disk.write(at, &block)?;
    Ok(())
}

/// Gives all these bytes of a device these values.
fn put_all<D: Disk>(disk: &mut D, all: &[(u32, usize, &[u8])]) -> Result<(), Fail> {
    for (at, place, bytes) in all {
        put(disk, *at, *place, bytes)?;
    }
    Ok(())
}

/// The record of a file with a name of two letters, of this slot pair and the number after it: 45 bytes.
fn record(slot: u8) -> [u8; 45] {
    let mut bytes = [0; 45];
    bytes[1] = 45;
    bytes[5] = slot.wrapping_add(1);
    bytes[9] = slot;
    bytes[30] = 2;
    bytes[31] = b'a'.wrapping_add(slot / 26);
    bytes[32] = b'a'.wrapping_add(slot % 26);
    for user in [33, 37, 41] {
        bytes[user..user + 4].copy_from_slice(&[3, b'a', b'd', b'm']);
    }
    bytes
}

/// A leaf of the records of so many files, from this slot pair on.
fn records(first: u8, count: u8) -> [u8; BLOCK] {
    let mut block = [0; BLOCK];
    write(&mut block, 0, &u16::from(count).to_be_bytes());
    write(
        &mut block,
        2,
        &45u16.wrapping_mul(u16::from(count)).to_be_bytes(),
    );
    for i in 0..count {
        let place = 45usize.wrapping_mul(usize::from(i)).wrapping_add(4);
        write(&mut block, place, &record(first.wrapping_add(i)));
    }
    block
}

/// A leaf of the entries of so many empty files, from this slot pair on, whose first entry alone is in use.
fn entries(first: u8, count: u8) -> [u8; BLOCK] {
    let mut block = [0; BLOCK];
    for i in 0..count {
        let place = 80usize.wrapping_mul(usize::from(i));
        let number = u32::from(first.wrapping_add(i)).wrapping_add(1);
        let tag = number.wrapping_mul(2).wrapping_add(32);
        write(&mut block, place.wrapping_add(4), &[1]);
        write(&mut block, place.wrapping_add(8), &tag.to_be_bytes());
    }
    block
}

/// The leaves of the 200 files.
fn put_files<D: Disk>(disk: &mut D) -> Result<(), Fail> {
    put(disk, 5, 0, &entries(0, 102))?;
    put(disk, 6, 0, &entries(102, 98))?;
    put(disk, 8, 0, &records(0, 70))?;
    put(disk, 9, 0, &records(70, 70))?;
    put(disk, 10, 0, &records(140, 60))
}

/// A device in a file of so many blocks.
fn file<'a>(
    rt: &'a HostRuntime,
    path: &str,
    blocks: u64,
) -> Result<FileDisk<&'a HostRuntime>, Fail> {
    File::create(rt, path)?.set_len(blocks.wrapping_mul(BLOCK as u64))?;
    Ok(FileDisk::new(rt, String::from_str(rt.alloc(), path)?))
}

/// Whether `flchk` ends so over these devices, and prints just this line.
fn prints<D: Disk, A: Disk>(
    rt: &HostRuntime,
    main: &mut D,
    arena: &mut A,
    end: ToolEnd,
    line: &[u8],
) -> bool {
    let mut out = MemSink::new(Vec::new(rt.alloc()));
    flchk(rt.alloc(), main, arena, &mut out) == end && out.bytes() == line
}

/// Whether `flfmt` formats these devices.
fn format<D: Disk, A: Disk>(rt: &HostRuntime, main: &mut D, arena: &mut A) -> bool {
    let mut out = MemSink::new(Vec::new(rt.alloc()));
    flfmt(rt.alloc(), main, arena, &mut out, 7) == ToolEnd::Ended
}

/// Whether the tree is sound, and S4 is broken at a leaf of `f` whose label has another tag.
fn tree<D: Disk, A: Disk>(rt: &HostRuntime, main: &mut D, arena: &mut A) -> Result<bool, Fail> {
    if !format(rt, main, arena) {
        return Ok(false);
    }
    put_all(main, TREE)?;
    let line = b"sound 64 blocks 10 used 0 leaked 0 snapshots\n";
    let sound = prints(rt, main, arena, ToolEnd::Ended, line);
    put(main, 2, 111, b"\x23")?;
    let end = ToolEnd::Unsound { rule: 4, block: 7 };
    Ok(sound && prints(rt, main, arena, end, b""))
}

/// Whether the directory is sound; S5 is broken at one of two leaves that have a name in common; and S4, at the block of a label that is
/// none, is named before it.
fn wide<D: Disk, A: Disk>(rt: &HostRuntime, main: &mut D, arena: &mut A) -> Result<bool, Fail> {
    if !format(rt, main, arena) {
        return Ok(false);
    }
    put_all(main, WIDE)?;
    put_files(main)?;
    let line = b"sound 64 blocks 8 used 0 leaked 0 snapshots\n";
    let sound = prints(rt, main, arena, ToolEnd::Ended, line);
    put(main, 10, 35, b"aa")?;
    let first = ToolEnd::Unsound { rule: 5, block: 8 };
    let second = ToolEnd::Unsound { rule: 5, block: 10 };
    let twice = prints(rt, main, arena, first, b"") || prints(rt, main, arena, second, b"");
    put(main, 2, 84, b"\x02")?;
    let label = ToolEnd::Unsound { rule: 4, block: 6 };
    Ok(sound && twice && prints(rt, main, arena, label, b""))
}

#[test]
fn trees(rt: HostRuntime) -> Result<(), Fail> {
    let mut main = file(&rt, "test_top_tree.main", 64)?;
    let mut arena = file(&rt, "test_top_tree.arena", 16)?;
    assert!(rt; tree(&rt, &mut main, &mut arena)?);
    fs::remove_file(&rt, "test_top_tree.main")?;
    fs::remove_file(&rt, "test_top_tree.arena")?;
    Ok(())
}

#[test]
fn names(rt: HostRuntime) -> Result<(), Fail> {
    let mut main = file(&rt, "test_top_wide.main", 64)?;
    let mut arena = file(&rt, "test_top_wide.arena", 16)?;
    assert!(rt; wide(&rt, &mut main, &mut arena)?);
    fs::remove_file(&rt, "test_top_wide.main")?;
    fs::remove_file(&rt, "test_top_wide.arena")?;
    Ok(())
}
