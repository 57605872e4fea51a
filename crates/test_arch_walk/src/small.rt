//! A root directory with two files of five bytes.
use crate::disks::{arena, arena_of, devices};
use crate::made::archived;
use fo_arch::Archive;
use fo_arch_hash::MOST;
use fo_devices::Devices;
use fo_disk::MemDisk;
use fo_image::Score;
use std::alloc::Global;
use std::test::Fail;
use venti_store::Arena;

/// What stands where: the header, the super block of epoch 9, labels, the root block in block 3, its leaf of entries in 4, its leaf of records
/// in 5, the files' bytes in 6 and 7.
const TREE: &[(u32, usize, &[u8])] = &[
    (0, 0, b"FOSSILHD\0\0\x20\0\0\0\0@"),
    (
        1,
        0,
        b"FOSSILSB\0\x01\0\0\0\x09\0\0\0\x09\0\0\0\x03\0\0\0\x03",
    ),
    (2, 42, b"\x01\x10\0\0\0\x09\xff\xff\xff\xff\0\0\0\x01"),
    (2, 56, b"\x01\x08\0\0\0\x01\xff\xff\xff\xff\0\0\0 "),
    (2, 70, b"\x01\0\0\0\0\x01\xff\xff\xff\xff\0\0\0!"),
    (2, 84, b"\x01\0\0\0\0\x01\xff\xff\xff\xff\0\0\0\x22"),
    (2, 98, b"\x01\0\0\0\0\x01\xff\xff\xff\xff\0\0\0$"),
    (3, 0, b"FOSSILRT\0\0\0\x09\0\0\0\x01"),
    (3, 28, b"\x03"),
    (3, 35, b" "),
    (3, 42, b" "),
    (3, 63, b"\x05\0\0\0\0\x01"),
    (3, 75, b"!"),
    (3, 82, b" "),
    (3, 103, b"\x06\0,"),
    (
        3,
        122,
        b"\x80\0\x01\xff\0\0\0\x07\0\0\0\x08\x01/\x03adm\x03adm\x03adm",
    ),
    (4, 3, b"\x03\x01"),
    (4, 11, b"\x22"),
    (4, 19, b"\x05"),
    (4, 39, b"\x07"),
    (4, 83, b"\x04\x01"),
    (4, 91, b"$"),
    (4, 99, b"\x05"),
    (4, 119, b"\x08"),
    (5, 1, b"\x02\0X\0,\0\0\0\x01"),
    (
        5,
        17,
        b"\x03\0\0\0\0\0\0\x01\x80\0\0\0\x07\0\0\0\x08\x01a\x03adm\x03adm\x03adm\0,\0\0\0\x02\0\0\0\x01\0\0\0\x04",
    ),
    (
        5,
        68,
        b"\x01\x80\0\0\0\x07\0\0\0\x08\x01b\x03adm\x03adm\x03adm",
    ),
    (6, 0, b"hello"),
    (7, 0, b"world"),
];

/// The score of the archive of epoch 9, time 77, with no archive before.
const FIRST: Score = Score([
    0x0c, 0x99, 0x3e, 0x34, 0xa6, 0x1c, 0xb1, 0x55, 0x22, 0xb6, 0xc2, 0x30, 0x06, 0xcc, 0xd1, 0xf2,
    0xa2, 0x6d, 0xa7, 0x0e,
]);

/// The score of the archive of epoch 10, time 78, where a byte of the first file was changed, after the first one.
const SECOND: Score = Score([
    0xcd, 0x01, 0xf0, 0x47, 0x0c, 0xba, 0xf4, 0x8b, 0x48, 0x12, 0x0f, 0x76, 0x41, 0xa5, 0xa6, 0x19,
    0xfb, 0xe9, 0xb3, 0x84,
]);

/// Another first byte of the first file, and its count of changes.
const CHANGES: &[(u32, usize, &[u8])] = &[(6, 0, b"j"), (5, 21, b"\x01")];

/// The blocks of the tree, with these bytes changed.
fn tree(
    alloc: Global,
    arena: Arena<MemDisk>,
    changes: &[(u32, usize, &[u8])],
) -> Result<Devices<MemDisk, MemDisk>, Fail> {
    devices(alloc, arena, TREE, changes)
}

/// Whether the first archive, in batches of at most `n` blocks, has its score and takes six places.
fn first(alloc: Global, on: &mut Devices<MemDisk, MemDisk>, n: u32) -> bool {
    let archive = Archive::begin(alloc, 9, 77, 3, None);
    archived(alloc, on, archive, n.max(1) as usize) == Some(FIRST) && on.arena.used() == 6
}

/// Whether the second archive has its score, and eleven places are used then.
fn second(alloc: Global, on: &mut Devices<MemDisk, MemDisk>, n: u32) -> bool {
    let archive = Archive::begin(alloc, 10, 78, 3, Some(FIRST));
    archived(alloc, on, archive, n.max(1) as usize) == Some(SECOND) && on.arena.used() == 11
}

/// Whether the second archive goes into this arena, of the tree with a byte of the first file changed, and its count of changes.
fn changed(alloc: Global, arena: Arena<MemDisk>, n: u32) -> Result<bool, Fail> {
    let mut on = tree(alloc, arena, CHANGES)?;
    let is_so = second(alloc, &mut on, n);
    let _arena = arena_of(on);
    Ok(is_so)
}

/// Whether the tree is archived, and again after that change.
fn both(alloc: Global, n: u32, m: u32) -> Result<bool, Fail> {
    let mut on = tree(alloc, arena(alloc)?, &[])?;
    let before = first(alloc, &mut on, n);
    let after = changed(alloc, arena_of(on), m)?;
    Ok(before && after)
}

/// Six places, and five more for what is new: a leaf, the entries, the records, the top block and the root. With ample memory.
#[test]
fn ample(rt: HostRuntime) -> Result<(), Fail> {
    assert!(rt; both(rt.alloc(), MOST, MOST)?);
    Ok(())
}

/// However many blocks a batch has.
#[test]
fn one_by_one(rt: HostRuntime) -> Result<(), Fail> {
    assert!(rt; both(rt.alloc(), 1, MOST)?);
    assert!(rt; both(rt.alloc(), 2, 1)?);
    Ok(())
}

/// Whether an archive that is begun again takes no place more.
fn again(alloc: Global) -> Result<bool, Fail> {
    let mut on = tree(alloc, arena(alloc)?, &[])?;
    let once = first(alloc, &mut on, 3);
    let twice = first(alloc, &mut on, 1);
    let _arena = arena_of(on);
    Ok(once && twice)
}

/// What is held is not put again.
#[test]
fn twice(rt: HostRuntime) -> Result<(), Fail> {
    assert!(rt; again(rt.alloc())?);
    Ok(())
}
