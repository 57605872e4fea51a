use crate::made::{made, put, twin};
use fo_check_tree::{Broken, Found, Setting, TreeError, check_tree};
use fo_disk::{BLOCK, Disk, MemDisk};
use fo_image::{read_root, read_super};
use std::alloc::Global;
use std::test::Fail;

/// What the check answers of a device of 64 blocks with its active root at block 3.
fn checked(alloc: Global, main: &mut MemDisk) -> Result<Result<Found, TreeError>, Fail> {
    if main.blocks()? != 64 {
        return Ok(Err(TreeError::Read));
    }
    let mut block = [0; BLOCK];
    main.read(1, &mut block)?;
    let s = read_super(&block)?;
    main.read(3, &mut block)?;
    let root = read_root(alloc, &block)?;
    Ok(check_tree(alloc, main, Setting { blocks: 64, s }, &root))
}

/// What the check answers of the image once these bytes were changed, each by its block and its place.
fn answer(alloc: Global, bytes: &[(u32, usize, u8)]) -> Result<Result<Found, TreeError>, Fail> {
    let mut main = MemDisk::new(alloc, 64, Vec::new(alloc))?;
    let mut arena = MemDisk::new(alloc, 16, Vec::new(alloc))?;
    made(alloc, &mut main, &mut arena)?;
    for (at, place, byte) in bytes {
        put(&mut main, *at, *place, &[*byte])?;
    }
    checked(alloc, &mut main)
}

/// Whether the check then names this rule and this block.
fn names(alloc: Global, bytes: &[(u32, usize, u8)], rule: u8, block: u32) -> Result<bool, Fail> {
    match answer(alloc, bytes)? {
        Err(TreeError::Label(at)) => Ok(rule == 4 && at == block),
        Ok(found) => Ok(found.broken == Some(Broken { rule, block })),
        Err(_) => Ok(false),
    }
}

/// Each change of one byte, by its block and its place, breaks this rule at the block beside it. The first that doesn't, else none.
fn each(
    alloc: Global,
    rule: u8,
    changes: &[(u32, usize, u8, u32)],
) -> Result<Option<(u32, usize, u8, u32)>, Fail> {
    for change in changes {
        let (at, place, byte, block) = *change;
        if !names(alloc, &[(at, place, byte)], rule, block)? {
            return Ok(Some(*change));
        }
    }
    Ok(None)
}

/// The sound image, in which all blocks from 3 to 12 are used.
fn is_sound(
    alloc: Global,
    bytes: &[(u32, usize, u8)],
    used: u32,
    leaked: u32,
) -> Result<bool, Fail> {
    let wanted = Found {
        broken: None,
        used,
        leaked,
    };
    Ok(answer(alloc, bytes)? == Ok(wanted))
}

#[test]
fn ample(rt: HostRuntime) -> Result<(), Fail> {
    assert!(rt; is_sound(rt.alloc(), &[], 10, 0)?);
    Ok(())
}

/// Without its top pointer the file `f` is a hole: its four blocks are leaked.
#[test]
fn leaked(rt: HostRuntime) -> Result<(), Fail> {
    assert!(rt; is_sound(rt.alloc(), &[(4, 39, 0)], 6, 4)?);
    Ok(())
}

/// A data leaf's tag and its epoch, a kind, a state that is none, and bytes of the table that are in no label.
#[test]
fn labels(rt: HostRuntime) -> Result<(), Fail> {
    let changes = [
        (2, 111, 35, 7),
        (2, 103, 2, 7),
        (2, 113, 1, 8),
        (2, 112, 7, 8),
        (2, 0, 1, 2),
        (2, 8191, 1, 2),
    ];
    assert_eq!(rt; each(rt.alloc(), 4, &changes)?, None);
    Ok(())
}

/// A block of the tree that was closed at epoch 2.
#[test]
fn closed(rt: HostRuntime) -> Result<(), Fail> {
    let closed = [
        (2, 112, 9),
        (2, 118, 0),
        (2, 119, 0),
        (2, 120, 0),
        (2, 121, 2),
    ];
    assert!(rt; names(rt.alloc(), &closed, 4, 8)?);
    Ok(())
}

/// A pointer out of range and one to a header block: the block that holds it. One to its own block, and to a free block, also in the last
/// slot: the block that it leads to.
#[test]
fn pointers(rt: HostRuntime) -> Result<(), Fail> {
    let changes = [
        (6, 19, 200, 6),
        (6, 19, 2, 6),
        (6, 19, 7, 6),
        (6, 19, 20, 19),
        (6, 8179, 20, 19),
    ];
    assert_eq!(rt; each(rt.alloc(), 4, &changes)?, None);
    Ok(())
}

/// A score.
#[test]
fn scores(rt: HostRuntime) -> Result<(), Fail> {
    assert_eq!(rt; each(rt.alloc(), 9, &[(6, 0, 1, 6)])?, None);
    Ok(())
}

/// Bytes behind the pointers and behind the entries, an entry with bytes that have to be zero, leaves of records with wrong counts and
/// lengths, and equal names.
#[test]
fn formats(rt: HostRuntime) -> Result<(), Fail> {
    let changes = [
        (6, 8180, 1, 6),
        (4, 8160, 1, 4),
        (4, 6, 1, 4),
        (5, 1, 3, 5),
        (5, 1, 1, 5),
        (5, 3, 89, 5),
        (5, 5, 0, 5),
        (5, 35, 0, 5),
        (5, 79, 102, 5),
    ];
    assert_eq!(rt; each(rt.alloc(), 5, &changes)?, None);
    Ok(())
}

/// Generation, directory flag and tag of a pair; a pair that two names have; one past the size of the entries, whose number modulo the
/// leaf is that of a pair in use; and one past all leaves.
#[test]
fn pairs(rt: HostRuntime) -> Result<(), Fail> {
    let changes = [
        (5, 17, 1, 5),
        (5, 22, 128, 5),
        (5, 9, 9, 5),
        (5, 13, 1, 5),
        (5, 13, 102, 5),
        (5, 10, 1, 5),
    ];
    assert_eq!(rt; each(rt.alloc(), 6, &changes)?, None);
    Ok(())
}

/// Tags of the root's entries.
#[test]
fn root_entries(rt: HostRuntime) -> Result<(), Fail> {
    let changes = [(3, 35, 34), (2, 69, 34)];
    assert!(rt; names(rt.alloc(), &changes, 6, 3)?);
    Ok(())
}

/// A block that two slots of one block lead to.
#[test]
fn twice(rt: HostRuntime) -> Result<(), Fail> {
    assert_eq!(rt; each(rt.alloc(), 7, &[(6, 59, 8, 7)])?, None);
    Ok(())
}

/// What the check answers of an image in which two directories share a block of entries, once these bytes were changed.
fn shared(alloc: Global, bytes: &[(u32, usize, u8)]) -> Result<Result<Found, TreeError>, Fail> {
    let mut main = MemDisk::new(alloc, 64, Vec::new(alloc))?;
    let mut arena = MemDisk::new(alloc, 16, Vec::new(alloc))?;
    made(alloc, &mut main, &mut arena)?;
    twin(&mut main)?;
    for (at, place, byte) in bytes {
        put(&mut main, *at, *place, &[*byte])?;
    }
    checked(alloc, &mut main)
}

/// The records of both directories have their pairs there, so only the block is broken.
#[test]
fn shared_entries(rt: HostRuntime) -> Result<(), Fail> {
    let wanted = Found {
        broken: Some(Broken { rule: 7, block: 10 }),
        used: 11,
        leaked: 0,
    };
    assert!(rt; shared(rt.alloc(), &[])? == Ok(wanted));
    Ok(())
}

/// Of one of them a record has a pair that no block is for.
#[test]
fn shared_entries_and_a_pair(rt: HostRuntime) -> Result<(), Fail> {
    let wanted = Found {
        broken: Some(Broken { rule: 6, block: 11 }),
        used: 11,
        leaked: 0,
    };
    assert!(rt; shared(rt.alloc(), &[(11, 13, 102)])? == Ok(wanted));
    Ok(())
}

/// A number at the limit, and one that two files have.
#[test]
fn numbers(rt: HostRuntime) -> Result<(), Fail> {
    assert_eq!(rt; each(rt.alloc(), 8, &[(1, 25, 3, 11)])?, None);
    let same = [(11, 9, 1), (10, 11, 34), (2, 181, 34)];
    assert!(rt; names(rt.alloc(), &same, 8, 11)?);
    Ok(())
}

/// A change of one byte that breaks one rule, and the block that then is named.
#[derive(Clone, Copy)]
struct Change {
    byte: (u32, usize, u8),
    rule: u8,
    block: u32,
}

/// One for each rule: a leaf's tag, bytes behind entries, a record's generation, a block at two places, the limit of numbers, a score.
const BROKEN: [Change; 6] = [
    Change {
        byte: (2, 111, 35),
        rule: 4,
        block: 7,
    },
    Change {
        byte: (4, 8160, 1),
        rule: 5,
        block: 4,
    },
    Change {
        byte: (5, 17, 1),
        rule: 6,
        block: 5,
    },
    Change {
        byte: (6, 59, 8),
        rule: 7,
        block: 7,
    },
    Change {
        byte: (1, 25, 3),
        rule: 8,
        block: 11,
    },
    Change {
        byte: (6, 60, 1),
        rule: 9,
        block: 6,
    },
];

/// The rule of the first of these changes that, made beside this one, keeps this one's from being named, else none.
fn hidden(alloc: Global, low: &Change, others: &[Change]) -> Result<Option<u8>, Fail> {
    for high in others {
        if !names(alloc, &[low.byte, high.byte], low.rule, low.block)? {
            return Ok(Some(high.rule));
        }
    }
    Ok(None)
}

/// Two rules at once: the lower one is named, of each two.
#[test]
fn both(rt: HostRuntime) -> Result<(), Fail> {
    for first in 0..BROKEN.len() {
        assert_eq!(rt; hidden(rt.alloc(), &BROKEN[first], &BROKEN[first..])?, None);
    }
    Ok(())
}

/// The same of rules that records break, beside a block at two places; and of a record and a label.
#[test]
fn both_in_records(rt: HostRuntime) -> Result<(), Fail> {
    let shared = [(6, 59, 8)];
    let equal = joined(rt.alloc(), &SECOND, &shared)?;
    assert!(rt; names(rt.alloc(), equal.as_slice(), 5, 11)?);
    assert!(rt; names(rt.alloc(), &[(6, 59, 8), (5, 3, 89)], 5, 5)?);
    assert!(rt; names(rt.alloc(), &[(6, 59, 8), (5, 13, 102)], 6, 5)?);
    assert!(rt; names(rt.alloc(), &[(5, 17, 1), (2, 181, 35)], 4, 12)?);
    Ok(())
}

/// The changes that take the record of `d` out of its leaf.
fn without_d() -> [(u32, usize, u8); 46] {
    let mut gone = [(5, 0, 0); 46];
    gone[0] = (5, 1, 1);
    gone[1] = (5, 3, 44);
    for i in 0..44 {
        gone[2 + i] = (5, 48 + i, 0);
    }
    gone
}

/// A directory that no name leads to is used.
#[test]
fn unnamed(rt: HostRuntime) -> Result<(), Fail> {
    assert!(rt; is_sound(rt.alloc(), &without_d(), 10, 0)?);
    Ok(())
}

/// A second record `g` of the directory `d`, of 44 bytes, with number 4 and slot 1.
const SECOND: [(u32, usize, u8); 20] = [
    (11, 1, 2),
    (11, 3, 88),
    (11, 49, 44),
    (11, 53, 4),
    (11, 57, 1),
    (11, 78, 1),
    (11, 79, b'g'),
    (11, 80, 3),
    (11, 81, b'a'),
    (11, 82, b'd'),
    (11, 83, b'm'),
    (11, 84, 3),
    (11, 85, b'a'),
    (11, 86, b'd'),
    (11, 87, b'm'),
    (11, 88, 3),
    (11, 89, b'a'),
    (11, 90, b'd'),
    (11, 91, b'm'),
    (11, 92, 0),
];

/// The changes of both lists.
fn joined(
    alloc: Global,
    first: &[(u32, usize, u8)],
    second: &[(u32, usize, u8)],
) -> Result<Vec<(u32, usize, u8)>, Fail> {
    let mut all = Vec::new(alloc);
    all.extend_from_slice(first)?;
    all.extend_from_slice(second)?;
    Ok(all)
}

/// Equal names, also in a directory that no name leads to.
#[test]
fn equal_names(rt: HostRuntime) -> Result<(), Fail> {
    assert!(rt; names(rt.alloc(), &SECOND, 5, 11)?);
    let both = joined(rt.alloc(), &without_d(), &SECOND)?;
    assert!(rt; names(rt.alloc(), both.as_slice(), 5, 11)?);
    Ok(())
}
