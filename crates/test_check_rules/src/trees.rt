//! Rules 5 to 9: formats, names, pairs, places, numbers and scores.
use crate::made::{each, is_sound, names};
use std::test::Fail;

/// One of the root block's entries, the first or the second, has five levels, and nothing below them.
#[test]
fn deep_root(rt: HostRuntime) -> Result<(), Fail> {
    let first: [(u32, usize, &[u8]); 4] = [
        (3, 29, b"\x05"),
        (3, 37, b"\x01"),
        (3, 42, b"\0"),
        (3, 63, b"\0"),
    ];
    assert!(rt; names(rt.alloc(), &first, 5, 3)?);
    let second: [(u32, usize, &[u8]); 4] = [
        (3, 69, b"\x05"),
        (3, 77, b"\x01"),
        (3, 82, b"\0"),
        (3, 103, b"\0"),
    ];
    assert!(rt; names(rt.alloc(), &second, 5, 3)?);
    Ok(())
}

/// So has the entry of `f`, and the second one of `d`.
#[test]
fn deep_entry(rt: HostRuntime) -> Result<(), Fail> {
    let first: [(u32, usize, &[u8]); 4] = [
        (4, 5, b"\x05"),
        (4, 13, b"\x01"),
        (4, 18, b"\0"),
        (4, 39, b"\0"),
    ];
    assert!(rt; names(rt.alloc(), &first, 5, 4)?);
    let second: [(u32, usize, &[u8]); 4] = [
        (4, 125, b"\x05"),
        (4, 133, b"\x01"),
        (4, 138, b"\0"),
        (4, 159, b"\0"),
    ];
    assert!(rt; names(rt.alloc(), &second, 5, 4)?);
    Ok(())
}

/// Bytes behind pointers and behind entries. Entries that are none: with bytes between, flags that are none, one not in use that has
/// flags or a top, and depths that are not the least.
#[test]
fn blocks(rt: HostRuntime) -> Result<(), Fail> {
    let changes = [
        (6, 8180, 1, 6),
        (6, 8191, 1, 6),
        (4, 8160, 1, 4),
        (4, 8191, 1, 4),
        (4, 6, 1, 4),
        (4, 7, 1, 4),
        (4, 4, 5, 4),
        (4, 4, 2, 4),
        (4, 44, 2, 4),
        (4, 79, 1, 4),
        (4, 5, 0, 4),
        (4, 5, 2, 4),
        (10, 8191, 1, 10),
    ];
    assert_eq!(rt; each(rt.alloc(), 5, &changes)?, None);
    Ok(())
}

/// An entry that is not in use may have a generation.
#[test]
fn generations(rt: HostRuntime) -> Result<(), Fail> {
    assert!(rt; is_sound(rt.alloc(), &[(4, 43, b"\x09")], 10, 0)?);
    Ok(())
}

/// Leaves of records with wrong counts and lengths, bytes behind, texts that are too short, too long, or none, and equal names.
#[test]
fn leaves(rt: HostRuntime) -> Result<(), Fail> {
    let changes = [
        (5, 0, 1, 5),
        (5, 1, 0, 5),
        (5, 1, 1, 5),
        (5, 1, 3, 5),
        (5, 2, 1, 5),
        (5, 3, 0, 5),
        (5, 3, 87, 5),
        (5, 3, 89, 5),
        (5, 92, 1, 5),
        (5, 8191, 1, 5),
        (5, 34, 0, 5),
        (5, 34, 2, 5),
        (5, 34, 255, 5),
        (5, 36, 0, 5),
        (5, 40, 65, 5),
        (5, 44, 2, 5),
        (5, 35, 0, 5),
        (5, 35, 255, 5),
        (5, 37, 0, 5),
        (5, 41, 128, 5),
        (5, 79, b'f', 5),
    ];
    assert_eq!(rt; each(rt.alloc(), 5, &changes)?, None);
    Ok(())
}

/// A leaf below the second entry of a file that no name leads to is no leaf of records.
#[test]
fn second_leaves(rt: HostRuntime) -> Result<(), Fail> {
    let changes: [(u32, usize, &[u8]); 5] = [
        (2, 182, b"\x01\0\0\0\0\x01\xff\xff\xff\xff\0\0\0\x29"),
        (10, 84, b"\x01\0\0\0\0\0\0\x28\0\0\0\0\0\0\0\0"),
        (10, 124, b"\x01\0\0\0\0\0\0\x29\0\0\0\0\0\0\0\x05"),
        (10, 159, b"\x0e"),
        (13, 0, b"\x01"),
    ];
    assert!(rt; names(rt.alloc(), &changes, 5, 13)?);
    let [label, first, second, top, _] = changes;
    assert!(rt; is_sound(rt.alloc(), &[label, first, second, top], 11, 0)?);
    Ok(())
}

/// Pairs that are none: a slot that is free, past the size, and past all leaves; another generation, number, and mode.
#[test]
fn pairs(rt: HostRuntime) -> Result<(), Fail> {
    let changes = [
        (5, 9, 9, 5),
        (5, 13, 9, 5),
        (5, 13, 1, 5),
        (5, 13, 102, 5),
        (5, 10, 1, 5),
        (5, 17, 1, 5),
        (5, 22, 128, 5),
        (5, 66, 0, 5),
        (11, 13, 1, 11),
        (11, 17, 1, 11),
    ];
    assert_eq!(rt; each(rt.alloc(), 6, &changes)?, None);
    Ok(())
}

/// A pair whose tag, that of its blocks too, is of another number.
#[test]
fn first_tags(rt: HostRuntime) -> Result<(), Fail> {
    let changes: [(u32, usize, &[u8]); 2] = [(10, 11, b"\x28"), (2, 181, b"\x28")];
    assert!(rt; names(rt.alloc(), &changes, 6, 11)?);
    Ok(())
}

/// The second entry of a directory: not in use, with flag 2, with another tag. That of a file: in use.
#[test]
fn second_entries(rt: HostRuntime) -> Result<(), Fail> {
    let none: [(u32, usize, &[u8]); 2] = [(4, 124, &[0; 16]), (4, 159, b"\0")];
    assert!(rt; names(rt.alloc(), &none, 6, 5)?);
    let dir: [(u32, usize, &[u8]); 3] = [(4, 124, b"\x03"), (4, 138, b"\0"), (4, 159, b"\0")];
    assert!(rt; names(rt.alloc(), &dir, 6, 5)?);
    let tag: [(u32, usize, &[u8]); 2] = [(4, 131, b"\x27"), (2, 167, b"\x27")];
    assert!(rt; names(rt.alloc(), &tag, 6, 5)?);
    let file: [(u32, usize, &[u8]); 2] = [(4, 44, b"\x01"), (4, 51, b"\x23")];
    assert!(rt; names(rt.alloc(), &file, 6, 5)?);
    Ok(())
}

/// The root's entries: the first not in use, without flag 2, or with another tag, where nothing is below both; the second not in use, with
/// flag 2, or with another tag, where no record is below it.
#[test]
fn root_entries(rt: HostRuntime) -> Result<(), Fail> {
    let first: [(u32, usize, &[u8]); 3] = [(3, 28, &[0; 36]), (3, 82, b"\0"), (3, 103, b"\0")];
    assert!(rt; names(rt.alloc(), &first, 6, 3)?);
    let plain: [(u32, usize, &[u8]); 5] = [
        (3, 28, b"\x01"),
        (3, 42, b"\0"),
        (3, 63, b"\0"),
        (3, 82, b"\0"),
        (3, 103, b"\0"),
    ];
    assert!(rt; names(rt.alloc(), &plain, 6, 3)?);
    let tag: [(u32, usize, &[u8]); 4] = [
        (3, 35, b"\x22"),
        (2, 69, b"\x22"),
        (3, 82, b"\0"),
        (3, 103, b"\0"),
    ];
    assert!(rt; names(rt.alloc(), &tag, 6, 3)?);
    assert!(rt; names(rt.alloc(), &[(3, 68, &[0; 36])], 6, 3)?);
    let dir: [(u32, usize, &[u8]); 3] = [(3, 68, b"\x03"), (3, 82, b"\0"), (3, 103, b"\0")];
    assert!(rt; names(rt.alloc(), &dir, 6, 3)?);
    let second: [(u32, usize, &[u8]); 3] = [(3, 75, b"\x23"), (3, 82, b"\0"), (3, 103, b"\0")];
    assert!(rt; names(rt.alloc(), &second, 6, 3)?);
    Ok(())
}

/// A second record `h` of the directory `d`, with the number and the pair of `g`.
#[test]
fn one_pair(rt: HostRuntime) -> Result<(), Fail> {
    let changes: [(u32, usize, &[u8]); 3] = [
        (11, 1, b"\x02"),
        (11, 3, b"\x58\0\x2c\0\0\0\x03"),
        (
            11,
            48,
            b"\0\x2c\0\0\0\x03\0\0\0\0\0\0\0\0\0\0\0\0\0\0\0\0\0\0\0\0\0\0\0\0\x01h\x03adm\x03adm\x03adm",
        ),
    ];
    assert!(rt; names(rt.alloc(), &changes, 6, 11)?);
    Ok(())
}

/// Two slots of one block lead to one; so do two entries of one directory, and an entry of a directory leads to its own block.
#[test]
fn places(rt: HostRuntime) -> Result<(), Fail> {
    assert!(rt; names(rt.alloc(), &[(6, 59, b"\x08")], 7, 7)?);
    let twice: [(u32, usize, &[u8]); 2] = [
        (10, 84, b"\x01\0\0\0\0\0\0\x26\0\0\0\0\0\0\0\x05"),
        (10, 119, b"\x0d"),
    ];
    assert!(rt; names(rt.alloc(), &twice, 7, 12)?);
    let own: [(u32, usize, &[u8]); 2] = [
        (10, 84, b"\x03\0\0\0\0\0\0\x24\0\0\0\0\0\0\x20\0"),
        (10, 119, b"\x0b"),
    ];
    assert!(rt; names(rt.alloc(), &own, 7, 10)?);
    Ok(())
}

/// A number at the limit, and number 0, with the tags of its pair and its blocks.
#[test]
fn numbers(rt: HostRuntime) -> Result<(), Fail> {
    assert!(rt; names(rt.alloc(), &[(1, 25, b"\x03")], 8, 11)?);
    let none: [(u32, usize, &[u8]); 3] = [(11, 9, b"\0"), (10, 11, b"\x20"), (2, 181, b"\x20")];
    assert!(rt; names(rt.alloc(), &none, 8, 11)?);
    Ok(())
}

/// Scores: in a pointer, that of the empty block in another, in entries of a pair, and in those of the root, where no record is.
#[test]
fn scores(rt: HostRuntime) -> Result<(), Fail> {
    let changes = [(6, 0, 1, 6), (4, 20, 1, 4), (10, 20, 1, 10), (3, 84, 1, 3)];
    assert_eq!(rt; each(rt.alloc(), 9, &changes)?, None);
    let empty: [(u32, usize, &[u8]); 1] = [(
        6,
        40,
        b"\xda\x39\xa3\xee\x5e\x6b\x4b\x0d\x32\x55\xbf\xef\x95\x60\x18\x90\xaf\xd8\x07\x09",
    )];
    assert!(rt; names(rt.alloc(), &empty, 9, 6)?);
    let root: [(u32, usize, &[u8]); 3] = [(3, 44, b"\x01"), (3, 82, b"\0"), (3, 103, b"\0")];
    assert!(rt; names(rt.alloc(), &root, 9, 3)?);
    Ok(())
}
