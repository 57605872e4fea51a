//! A root directory with a file of five leaves below pointers, a directory with a file in it, and a file that no name leads to.
ghost use Rattle.std.specs.Prelude.{◌≡◌};

use crate::disks::{arena, arena_of, devices};
use crate::made::{Next, archived, run};
use fo_arch::Archive;
use fo_arch_hash::MOST;
use fo_base::BLOCK;
use fo_devices::Devices;
use fo_disk::MemDisk;
use fo_image::Score;
use std::alloc::Global;
use std::test::Fail;
use venti_store::Arena;

/// What stands where, but for the leaves of the first file: the header, the super block of epoch 4, labels, the root block in block 3, its leaf
/// of entries in 4, its leaf of records in 5. The pointers of the first file are in block 7: to 8, 9, none, 10 and 15, of which 10 is as 8, and
/// 15 has zeros. The directory's entries are in 11, its records in 12, its file's bytes in 13, and those of the file without a name in 14.
const TREE: &[(u32, usize, &[u8])] = &[
    (0, 0, b"FOSSILHD\0\0\x20\0\0\0\0@"),
    (
        1,
        0,
        b"FOSSILSB\0\x01\0\0\0\x04\0\0\0\x04\0\0\0\x03\0\0\0\x05",
    ),
    (2, 42, b"\x01\x10\0\0\0\x04\xff\xff\xff\xff\0\0\0\x01"),
    (2, 56, b"\x01\x08\0\0\0\x01\xff\xff\xff\xff\0\0\0 "),
    (2, 70, b"\x01\0\0\0\0\x01\xff\xff\xff\xff\0\0\0!"),
    (2, 98, b"\x01\x01\0\0\0\x01\xff\xff\xff\xff\0\0\0\x22"),
    (2, 112, b"\x01\0\0\0\0\x01\xff\xff\xff\xff\0\0\0\x22"),
    (2, 126, b"\x01\0\0\0\0\x01\xff\xff\xff\xff\0\0\0\x22"),
    (2, 140, b"\x01\0\0\0\0\x01\xff\xff\xff\xff\0\0\0\x22"),
    (2, 154, b"\x01\x08\0\0\0\x01\xff\xff\xff\xff\0\0\0$"),
    (2, 168, b"\x01\0\0\0\0\x01\xff\xff\xff\xff\0\0\0%"),
    (2, 182, b"\x01\0\0\0\0\x01\xff\xff\xff\xff\0\0\0&"),
    (2, 196, b"\x01\0\0\0\0\x01\xff\xff\xff\xff\0\0\0("),
    (2, 210, b"\x01\0\0\0\0\x01\xff\xff\xff\xff\0\0\0\x22"),
    (3, 0, b"FOSSILRT\0\0\0\x04\0\0\0\x01"),
    (3, 28, b"\x03"),
    (3, 35, b" "),
    (3, 42, b" "),
    (3, 63, b"\x05\0\0\0\0\x01"),
    (3, 75, b"!"),
    (3, 82, b" "),
    (3, 103, b"\x06\0,"),
    (
        3,
        122,
        b"\x80\0\x01\xff\0\0\0\x07\0\0\0\x08\x01/\x03adm\x03adm\x03adm",
    ),
    (4, 3, b"\x01\x01\x01\0\0\0\0\0\x22"),
    (4, 18, b"\xa0"),
    (4, 39, b"\x08"),
    (4, 83, b"\x02\x03"),
    (4, 91, b"$"),
    (4, 98, b" "),
    (4, 119, b"\x0c\0\0\0\0\x01"),
    (4, 131, b"%"),
    (4, 138, b" "),
    (4, 159, b"\x0d\0\0\0\x05\x01"),
    (4, 171, b"("),
    (4, 179, b"\x03"),
    (4, 199, b"\x0f"),
    (5, 1, b"\x02\0X\0,\0\0\0\x01"),
    (5, 17, b"\x01"),
    (
        5,
        24,
        b"\x01\xa4\0\0\0\x07\0\0\0\x08\x01f\x03adm\x03adm\x03adm\0,\0\0\0\x02\0\0\0\x01\0\0\0\x02\0\0\0\0\x80\0\x01\xff\0\0\0\x07\0\0\0\x08\x01d\x03adm\x03adm\x03adm",
    ),
    (7, 19, b"\x09"),
    (7, 39, b"\x0a"),
    (7, 79, b"\x0b"),
    (7, 99, b"\x10"),
    (11, 3, b"\x03\x01"),
    (11, 11, b"&"),
    (11, 19, b"\x05"),
    (11, 39, b"\x0e"),
    (12, 1, b"\x01\0,\0,\0\0\0\x03"),
    (12, 17, b"\x03"),
    (
        12,
        24,
        b"\x01\xa4\0\0\0\x07\0\0\0\x08\x01g\x03adm\x03adm\x03adm",
    ),
    (13, 0, b"gamma"),
    (14, 0, b"odd"),
];

/// The score of the archive of epoch 4, time 1234.
const DEEP: Score = Score([
    0x88, 0x9d, 0xdf, 0x55, 0xb3, 0x4a, 0x3e, 0xa6, 0xaf, 0x51, 0x3a, 0x54, 0xb6, 0x6b, 0xb4, 0x65,
    0xc4, 0x0a, 0xb7, 0x61,
]);

/// No other byte.
const SAME: (u32, usize, &[u8]) = (0, 0, b"F");

/// The blocks of the tree, with bytes of one block changed.
fn tree(
    alloc: Global,
    arena: Arena<MemDisk>,
    change: (u32, usize, &[u8]),
) -> Result<Devices<MemDisk, MemDisk>, Fail> {
    let more: &[(u32, usize, &[u8])] = &[
        (8, 0, &[b'A'; BLOCK]),
        (9, 0, &[b'B'; BLOCK]),
        (10, 0, &[b'A'; BLOCK]),
        change,
    ];
    devices(alloc, arena, TREE, more)
}

/// Whether the tree is archived in batches of at most `n` blocks: eleven places, since two leaves are one, and zeros take none.
fn is_archived(alloc: Global, n: u32) -> Result<bool, Fail> {
    let mut on = tree(alloc, arena(alloc)?, SAME)?;
    let archive = Archive::begin(alloc, 4, 1234, 3, None);
    let score = archived(alloc, &mut on, archive, n.max(1) as usize);
    let arena = arena_of(on);
    Ok(score == Some(DEEP) && arena.used() == 11)
}

/// A block of pointers, directories, and a pair without a name, with ample memory.
#[test]
fn ample(rt: HostRuntime) -> Result<(), Fail> {
    assert!(rt; is_archived(rt.alloc(), MOST)?);
    assert!(rt; is_archived(rt.alloc(), 1)?);
    Ok(())
}

/// Whether this archive goes on over the tree, in this arena, and has its score.
fn goes_on(alloc: Global, arena: Arena<MemDisk>, archive: Archive) -> Result<bool, Fail>
    requires { archive.root ≡ 3 }
{
    match tree(alloc, arena, SAME) {
        Ok(on) => {
            let mut on = on;
            let score = archived(alloc, &mut on, archive, 3);
            let _arena = arena_of(on);
            Ok(score == Some(DEEP))
        }
        Err(fail) => Err(fail),
    }
}

/// What comes of an archive where bytes of a block were changed; once they are mended, the archive goes on.
fn changed(alloc: Global, at: u32, place: usize, bytes: &[u8]) -> Result<Next, Fail> {
    let mut on = tree(alloc, arena(alloc)?, (at, place, bytes))?;
    let mut archive = Archive::begin(alloc, 4, 1234, 3, None);
    let next = run(alloc, &mut on, &mut archive, 4);
    match goes_on(alloc, arena_of(on), archive) {
        Ok(true) => Ok(next),
        Ok(false) => Ok(Next::Refused),
        Err(fail) => Err(fail),
    }
}

/// A root block, an entry, a count of records and a pointer that are none: the block that has them. A pointer to a block of another kind,
/// as the block's own: the block that it leads to.
#[test]
fn damaged(rt: HostRuntime) -> Result<(), Fail> {
    let alloc = rt.alloc();
    assert_eq!(rt; changed(alloc, 3, 0, b"f")?, Next::Damaged(3));
    assert_eq!(rt; changed(alloc, 4, 6, b"\x01")?, Next::Damaged(4));
    assert_eq!(rt; changed(alloc, 5, 1, b"\x03")?, Next::Damaged(5));
    assert_eq!(rt; changed(alloc, 7, 19, b"\x02")?, Next::Damaged(7));
    assert_eq!(rt; changed(alloc, 7, 19, b"\x08")?, Next::Damaged(7));
    assert_eq!(rt; changed(alloc, 7, 19, b"\x0c")?, Next::Damaged(11));
    Ok(())
}
