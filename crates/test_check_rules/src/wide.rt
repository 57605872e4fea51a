//! A root directory of 200 empty files: entries in two leaves, records in three.
use crate::made::{fresh, put, put_all, write};
use fo_check::CheckError;
use fo_check_image::{Report, check};
use fo_disk::{BLOCK, MemDisk};
use std::alloc::Global;
use std::test::Fail;

/// The directory without its leaves: two of entries, in blocks 5 and 6 below a block of pointers in block 4, and three of records, in
/// blocks 8 to 10 below block 7.
const WIDE: &[(u32, usize, &[u8])] = &[
    (1, 25, b"\xc9"),
    (2, 56, b"\x01\x09\0\0\0\x01\xff\xff\xff\xff\0\0\0\x20"),
    (2, 70, b"\x01\x08\0\0\0\x01\xff\xff\xff\xff\0\0\0\x20"),
    (2, 84, b"\x01\x08\0\0\0\x01\xff\xff\xff\xff\0\0\0\x20"),
    (2, 98, b"\x01\x01\0\0\0\x01\xff\xff\xff\xff\0\0\0\x21"),
    (2, 112, b"\x01\x00\0\0\0\x01\xff\xff\xff\xff\0\0\0\x21"),
    (2, 126, b"\x01\x00\0\0\0\x01\xff\xff\xff\xff\0\0\0\x21"),
    (2, 140, b"\x01\x00\0\0\0\x01\xff\xff\xff\xff\0\0\0\x21"),
    // Depths, sizes and tops of the root's entries and records.
    (3, 29, b"\x01"),
    (3, 42, b"\x40"),
    (3, 63, b"\x05"),
    (3, 69, b"\x01"),
    (3, 82, b"\x60"),
    (3, 103, b"\x08"),
    (4, 19, b"\x06"),
    (4, 39, b"\x07"),
    (7, 19, b"\x09"),
    (7, 39, b"\x0a"),
    (7, 59, b"\x0b"),
];

/// The record of a file with a name of two letters, of this slot pair and the number after it: 45 bytes.
fn record(slot: u8) -> [u8; 45] {
    let mut bytes = [0; 45];
    bytes[1] = 45;
    bytes[5] = slot.wrapping_add(1);
    bytes[9] = slot;
    bytes[30] = 2;
    bytes[31] = b'a'.wrapping_add(slot / 26);
    bytes[32] = b'a'.wrapping_add(slot % 26);
    for user in [33, 37, 41] {
        bytes[user..user + 4].copy_from_slice(&[3, b'a', b'd', b'm']);
    }
    bytes
}

/// A leaf of the records of so many files, from this slot pair on.
fn records(first: u8, count: u8) -> [u8; BLOCK] {
    let mut block = [0; BLOCK];
    write(&mut block, 0, &u16::from(count).to_be_bytes());
    write(
        &mut block,
        2,
        &45u16.wrapping_mul(u16::from(count)).to_be_bytes(),
    );
    for i in 0..count {
        let place = 45usize.wrapping_mul(usize::from(i)).wrapping_add(4);
        write(&mut block, place, &record(first.wrapping_add(i)));
    }
    block
}

/// A leaf of the entries of so many empty files, from this slot pair on, whose first entry alone is in use.
fn entries(first: u8, count: u8) -> [u8; BLOCK] {
    let mut block = [0; BLOCK];
    for i in 0..count {
        let place = 80usize.wrapping_mul(usize::from(i));
        let number = u32::from(first.wrapping_add(i)).wrapping_add(1);
        let tag = number.wrapping_mul(2).wrapping_add(32);
        write(&mut block, place.wrapping_add(4), &[1]);
        write(&mut block, place.wrapping_add(8), &tag.to_be_bytes());
    }
    block
}

/// The leaves of the 200 files.
fn put_files(main: &mut MemDisk) -> Result<(), Fail> {
    put(main, 5, 0, &entries(0, 102))?;
    put(main, 6, 0, &entries(102, 98))?;
    put(main, 8, 0, &records(0, 70))?;
    put(main, 9, 0, &records(70, 70))?;
    put(main, 10, 0, &records(140, 60))
}

/// The devices of the image.
pub(crate) fn wide(alloc: Global) -> Result<(MemDisk, MemDisk), Fail> {
    let (mut main, arena) = fresh(alloc, 64)?;
    put_all(&mut main, WIDE)?;
    put_files(&mut main)?;
    Ok((main, arena))
}

/// What the check answers once these bytes were changed.
fn answer(
    alloc: Global,
    changes: &[(u32, usize, &[u8])],
) -> Result<Result<Report, CheckError>, Fail> {
    let (mut main, mut arena) = wide(alloc)?;
    put_all(&mut main, changes)?;
    Ok(check(alloc, &mut main, &mut arena))
}

/// Whether the check then names this rule, at one of these two leaves.
fn names(
    alloc: Global,
    changes: &[(u32, usize, &[u8])],
    rule: u8,
    one: u32,
    other: u32,
) -> Result<bool, Fail> {
    match answer(alloc, changes)? {
        Err(CheckError::Unsound { rule: r, block }) => {
            Ok(r == rule && (block == one || block == other))
        }
        _ => Ok(false),
    }
}

/// The directory is sound.
#[test]
fn many(rt: HostRuntime) -> Result<(), Fail> {
    let wanted = Report {
        blocks: 64,
        used: 8,
        leaked: 0,
        snapshots: 0,
    };
    assert!(rt; answer(rt.alloc(), &[])? == Ok(wanted));
    Ok(())
}

/// Two records of different leaves with one name; with one number and one pair; and with one number, each with a pair of its own.
#[test]
fn two_leaves(rt: HostRuntime) -> Result<(), Fail> {
    assert!(rt; names(rt.alloc(), &[(10, 35, b"aa")], 5, 8, 10)?);
    let pair: [(u32, usize, &[u8]); 2] = [(10, 9, b"\x01"), (10, 13, b"\0")];
    assert!(rt; names(rt.alloc(), &pair, 6, 8, 10)?);
    let number: [(u32, usize, &[u8]); 2] = [(10, 9, b"\x01"), (6, 3048, b"\0\0\0\x22")];
    assert!(rt; names(rt.alloc(), &number, 8, 8, 10)?);
    Ok(())
}

/// The last pointer of a block of pointers, and the last pair of a leaf of entries, lead to a block that is free.
#[test]
fn last_slots(rt: HostRuntime) -> Result<(), Fail> {
    assert!(rt; names(rt.alloc(), &[(7, 8179, b"\x14")], 4, 19, 19)?);
    assert!(rt; names(rt.alloc(), &[(5, 8119, b"\x14")], 4, 19, 19)?);
    let second: [(u32, usize, &[u8]); 2] = [
        (6, 8124, b"\x01\0\0\0\0\0\0\x20\0\0\0\0\0\0\0\x01"),
        (6, 8159, b"\x14"),
    ];
    assert!(rt; names(rt.alloc(), &second, 4, 19, 19)?);
    Ok(())
}
