//! Rules 1 and 2: the header, the super block and the active root.
use crate::made::{answer, each, is_sound, names};
use fo_check::CheckError;
use std::test::Fail;

/// The image as it was made.
#[test]
fn ample(rt: HostRuntime) -> Result<(), Fail> {
    assert!(rt; is_sound(rt.alloc(), &[], 10, 0)?);
    Ok(())
}

/// The header's name, size of blocks, number of blocks, and bytes behind.
#[test]
fn headers(rt: HostRuntime) -> Result<(), Fail> {
    let changes = [
        (0, 0, b'f', 0),
        (0, 11, 1, 0),
        (0, 15, 63, 0),
        (0, 16, 1, 0),
        (0, 8191, 1, 0),
    ];
    assert_eq!(rt; each(rt.alloc(), 1, &changes)?, None);
    Ok(())
}

/// The super block's name and version; epochs that are none; limits of numbers that are none; a pending epoch that is none; a mark that is
/// neither 0 nor 1; a score without a mark; and bytes behind.
#[test]
fn super_blocks(rt: HostRuntime) -> Result<(), Fail> {
    let changes = [
        (1, 0, b'f', 1),
        (1, 9, 2, 1),
        (1, 13, 0, 1),
        (1, 10, 128, 1),
        (1, 17, 0, 1),
        (1, 14, 128, 1),
        (1, 25, 0, 1),
        (1, 22, 64, 1),
        (1, 26, 128, 1),
        (1, 30, 2, 1),
        (1, 31, 1, 1),
        (1, 51, 1, 1),
        (1, 8191, 1, 1),
    ];
    assert_eq!(rt; each(rt.alloc(), 1, &changes)?, None);
    Ok(())
}

/// A low epoch above the high one, a pending one that is not below it, and an active root that is no data block.
#[test]
fn values(rt: HostRuntime) -> Result<(), Fail> {
    let changes = [
        (1, 13, 2, 1),
        (1, 29, 1, 1),
        (1, 29, 2, 1),
        (1, 21, 1, 1),
        (1, 21, 2, 1),
        (1, 21, 64, 1),
        (1, 19, 1, 1),
    ];
    assert_eq!(rt; each(rt.alloc(), 2, &changes)?, None);
    Ok(())
}

/// A pending epoch below the low one, where the active root is of the high one.
#[test]
fn pending(rt: HostRuntime) -> Result<(), Fail> {
    let changes: [(u32, usize, &[u8]); 5] = [
        (1, 13, b"\x02"),
        (1, 17, b"\x03"),
        (1, 29, b"\x01"),
        (2, 47, b"\x03"),
        (3, 11, b"\x03"),
    ];
    assert!(rt; names(rt.alloc(), &changes, 2, 1)?);
    Ok(())
}

/// An active root that is free, of another kind, state, epoch or tag; and one that is no root block of the high epoch: its name, epoch,
/// root before, entries, record, and bytes behind.
#[test]
fn roots(rt: HostRuntime) -> Result<(), Fail> {
    let changes = [
        (1, 21, 20, 20),
        (1, 21, 4, 4),
        (1, 21, 5, 5),
        (2, 42, 7, 3),
        (2, 43, 8, 3),
        (2, 47, 2, 3),
        (2, 55, 2, 3),
        (3, 0, b'f', 3),
        (3, 11, 2, 3),
        (3, 11, 0, 3),
        (3, 19, 1, 3),
        (3, 23, 9, 3),
        (3, 28, 2, 3),
        (3, 28, 7, 3),
        (3, 29, 1, 3),
        (3, 30, 1, 3),
        (3, 68, 0, 3),
        (3, 105, 45, 3),
        (3, 109, 1, 3),
        (3, 113, 1, 3),
        (3, 117, 1, 3),
        (3, 135, b'f', 3),
        (3, 148, 1, 3),
        (3, 8191, 1, 3),
    ];
    assert_eq!(rt; each(rt.alloc(), 2, &changes)?, None);
    Ok(())
}

/// An active root that was closed at its own epoch.
#[test]
fn closed(rt: HostRuntime) -> Result<(), Fail> {
    let changes: [(u32, usize, &[u8]); 2] = [(2, 42, b"\x09"), (2, 48, b"\0\0\0\x01")];
    assert!(rt; names(rt.alloc(), &changes, 2, 3)?);
    Ok(())
}

/// An active root whose root before is of an epoch that is none.
#[test]
fn before(rt: HostRuntime) -> Result<(), Fail> {
    let changes: [(u32, usize, &[u8]); 2] = [(3, 16, b"\x80"), (3, 23, b"\x09")];
    assert!(rt; names(rt.alloc(), &changes, 2, 3)?);
    Ok(())
}

/// A mark with a score of zeros is that of an archive.
#[test]
fn marked(rt: HostRuntime) -> Result<(), Fail> {
    let changes: [(u32, usize, &[u8]); 1] = [(1, 30, b"\x01")];
    assert!(rt; answer(rt.alloc(), &changes)? == Err(CheckError::NotBuilt));
    Ok(())
}
