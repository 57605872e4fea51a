//! Rule 4: labels, and where pointers and entries lead.
use crate::made::{each, fresh, is_sound, names, put};
use fo_check::CheckError;
use fo_check_image::{Report, check};
use std::alloc::Global;
use std::test::Fail;

/// The epoch of the image is 2, and no root is before the active one; all other blocks are of epoch 1.
const LATER: [(u32, usize, &[u8]); 4] = [
    (1, 13, b"\x02"),
    (1, 17, b"\x02"),
    (2, 47, b"\x02"),
    (3, 11, b"\x02"),
];

/// Labels of free blocks with something else; and of a block in use: another state, kinds that are none, epochs that are none, and an end
/// that is none.
#[test]
fn formats(rt: HostRuntime) -> Result<(), Fail> {
    let changes = [
        (2, 280, 1, 20),
        (2, 281, 1, 20),
        (2, 285, 1, 20),
        (2, 289, 1, 20),
        (2, 293, 1, 20),
        (2, 895, 1, 63),
        (2, 98, 2, 7),
        (2, 98, 0, 7),
        (2, 99, 5, 7),
        (2, 99, 7, 7),
        (2, 99, 13, 7),
        (2, 99, 17, 7),
        (2, 103, 0, 7),
        (2, 100, 128, 7),
        (2, 107, 254, 7),
    ];
    assert_eq!(rt; each(rt.alloc(), 4, &changes)?, None);
    Ok(())
}

/// A block that was closed before its epoch, and one whose end is no epoch.
#[test]
fn ends(rt: HostRuntime) -> Result<(), Fail> {
    let before: [(u32, usize, &[u8]); 1] = [(2, 280, b"\x09\0\0\0\0\x02\0\0\0\x01\0\0\0\x20")];
    assert!(rt; names(rt.alloc(), &before, 4, 20)?);
    let none: [(u32, usize, &[u8]); 1] = [(2, 280, b"\x09\0\0\0\0\x02\x80\0\0\0\0\0\0\x20")];
    assert!(rt; names(rt.alloc(), &none, 4, 20)?);
    Ok(())
}

/// A block that was closed at the low epoch, one that was closed in the epoch in which it was given out, and one that was closed after
/// both: the last one is leaked.
#[test]
fn usable(rt: HostRuntime) -> Result<(), Fail> {
    let low: [(u32, usize, &[u8]); 1] = [(2, 280, b"\x09\0\0\0\0\x01\0\0\0\x01\0\0\0\x20")];
    assert!(rt; is_sound(rt.alloc(), &low, 10, 0)?);
    let same: [(u32, usize, &[u8]); 1] = [(2, 280, b"\x09\0\0\0\0\x02\0\0\0\x02\0\0\0\x20")];
    assert!(rt; is_sound(rt.alloc(), &same, 10, 0)?);
    let after: [(u32, usize, &[u8]); 1] = [(2, 280, b"\x09\0\0\0\0\x01\0\0\0\x02\0\0\0\x20")];
    assert!(rt; is_sound(rt.alloc(), &after, 10, 1)?);
    Ok(())
}

/// Bytes of the label table that are in no label of a data block: of the blocks before them, of places past the device, and at the end.
#[test]
fn tables(rt: HostRuntime) -> Result<(), Fail> {
    let changes = [
        (2, 0, 1, 2),
        (2, 41, 1, 2),
        (2, 896, 1, 2),
        (2, 8176, 1, 2),
        (2, 8190, 1, 2),
        (2, 8191, 1, 2),
    ];
    assert_eq!(rt; each(rt.alloc(), 4, &changes)?, None);
    Ok(())
}

/// Pointers to a block before the data blocks and past the device, also in the last slot: the block that holds them. Those to its own
/// block and to a free one: the block led to.
#[test]
fn pointers(rt: HostRuntime) -> Result<(), Fail> {
    let changes = [
        (6, 19, 1, 6),
        (6, 19, 2, 6),
        (6, 19, 3, 6),
        (6, 19, 65, 6),
        (6, 16, 255, 6),
        (6, 8179, 65, 6),
        (6, 19, 7, 6),
        (6, 19, 20, 19),
        (6, 8179, 20, 19),
    ];
    assert_eq!(rt; each(rt.alloc(), 4, &changes)?, None);
    Ok(())
}

/// The same of entries: the root's, the first and the second of a pair. One that leads to a block of another kind, and labels of tops with
/// another kind or tag.
#[test]
fn entries(rt: HostRuntime) -> Result<(), Fail> {
    let changes = [
        (3, 63, 65, 3),
        (3, 63, 2, 3),
        (3, 103, 65, 3),
        (4, 39, 65, 4),
        (4, 159, 65, 4),
        (10, 39, 65, 10),
        (3, 63, 20, 19),
        (4, 39, 20, 19),
        (4, 159, 20, 19),
        (3, 63, 6, 5),
        (4, 39, 8, 7),
        (2, 57, 0, 4),
        (2, 69, 33, 4),
        (2, 71, 1, 5),
        (2, 141, 0, 10),
        (2, 153, 38, 10),
        (2, 181, 40, 12),
    ];
    assert_eq!(rt; each(rt.alloc(), 4, &changes)?, None);
    Ok(())
}

/// A leaf whose epoch is that of the tree, and after that of the block above; with that block of the same epoch, and so on, all is sound.
#[test]
fn epochs(rt: HostRuntime) -> Result<(), Fail> {
    assert!(rt; is_sound(rt.alloc(), &LATER, 10, 0)?);
    let [a, b, c, d] = LATER;
    let leaf: [(u32, usize, &[u8]); 5] = [a, b, c, d, (2, 103, b"\x02")];
    assert!(rt; names(rt.alloc(), &leaf, 4, 7)?);
    let way: [(u32, usize, &[u8]); 7] = [
        a,
        b,
        c,
        d,
        (2, 103, b"\x02"),
        (2, 89, b"\x02"),
        (2, 61, b"\x02"),
    ];
    assert!(rt; is_sound(rt.alloc(), &way, 10, 0)?);
    Ok(())
}

/// What the check answers of a fresh device of 600 blocks, with two blocks of labels, once a byte was changed.
fn larger(
    alloc: Global,
    at: u32,
    place: usize,
    byte: u8,
) -> Result<Result<Report, CheckError>, Fail> {
    let (mut main, mut arena) = fresh(alloc, 600)?;
    put(&mut main, at, place, &[byte])?;
    Ok(check(alloc, &mut main, &mut arena))
}

/// In the second block of labels: that of block 590 with a state that is none, and a byte past the device.
#[test]
fn second_block(rt: HostRuntime) -> Result<(), Fail> {
    let label = CheckError::Unsound {
        rule: 4,
        block: 590,
    };
    assert!(rt; larger(rt.alloc(), 3, 70, 7)? == Err(label));
    let past = CheckError::Unsound { rule: 4, block: 3 };
    assert!(rt; larger(rt.alloc(), 3, 210, 1)? == Err(past));
    Ok(())
}
