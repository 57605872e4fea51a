//! How many blocks are usable, and when a disk is full.
use crate::asks::{Ask, Row, Wanted, closes, fresh, goes};
use fo_cache::Cache;
use fo_disk::MemDisk;
use fo_turning::{Flushed, Unlinked, flush_turn, unlink_turn, usable};
use std::process::Abort;
use test_requests::disks::On;
use test_requests::requests::FILE;

/// Takes one step: a flushing turn, and where that is idle an unlinking turn. Whether both had nothing to do.
fn turn(cache: &mut Cache<MemDisk>) -> Option<bool> {
    match flush_turn(cache) {
        Ok(Flushed::Idle) => match unlink_turn(cache) {
            Ok(done) => Some(done == Unlinked::Empty),
            Err(_) => None,
        },
        Ok(_) => Some(false),
        Err(_) => None,
    }
}

/// Settles and closes all, in 200 turns at most.
fn rests(cache: &mut Cache<MemDisk>) -> bool {
    for _ in 0..200 {
        match turn(cache) {
            Some(true) => return true,
            Some(false) => (),
            None => return false,
        }
    }
    false
}

/// So many blocks are usable.
fn has_usable(rt: &impl Abort, files: &On, blocks: u32) {
    assert_eq!(rt; usable(&files.on.cache), blocks);
}

/// A file is made and five bytes are written.
const MADE: &[Row] = &[
    (&[], Ask::Make(b"f", FILE), Wanted::Is(1, 0)),
    (&[1], Ask::Write(0, b"hello"), Wanted::Done),
];

/// It is removed.
const REMOVED: &[Row] = &[(&[1], Ask::Remove, Wanted::Done)];

/// Another one is made and written.
const ANOTHER: &[Row] = &[
    (&[], Ask::Make(b"f", FILE), Wanted::Is(2, 0)),
    (&[2], Ask::Write(0, b"hello"), Wanted::Done),
];

/// 60 blocks are usable on a fresh disk of 64, and 57 once a file is made and written; its removal gives a block back once all is closed, and the
/// next file takes that.
#[test]
fn rooms(rt: HostRuntime) {
    let alloc = rt.alloc();
    let mut files = fresh(&rt, alloc);
    has_usable(&rt, &files, 60);
    goes(&rt, alloc, &mut files, MADE);
    has_usable(&rt, &files, 57);
    goes(&rt, alloc, &mut files, REMOVED);
    has_usable(&rt, &files, 57);
    assert!(&rt; rests(&mut files.on.cache));
    has_usable(&rt, &files, 58);
    goes(&rt, alloc, &mut files, ANOTHER);
    has_usable(&rt, &files, 57);
    closes(&rt, files);
}

/// A file gets seventeen blocks.
const GROWN: &[Row] = &[
    (&[], Ask::Make(b"f", FILE), Wanted::Is(1, 0)),
    (&[1], Ask::Fill(0, 17), Wanted::Done),
];

/// The next one is refused, and the file has seventeen.
const FULL: &[Row] = &[(
    &[1],
    Ask::Fill(139_264, 1),
    Wanted::Refused(b"file system full"),
)];

/// There is room for another file once it is removed.
const AGAIN: &[Row] = &[
    (&[], Ask::Find(b"f"), Wanted::Is(1, 139_264)),
    (&[1], Ask::Remove, Wanted::Done),
    (&[], Ask::Make(b"g", FILE), Wanted::Is(2, 0)),
    (&[2], Ask::Fill(0, 1), Wanted::Done),
    (&[], Ask::Find(b"g"), Wanted::Is(2, 8192)),
];

/// The eighteenth block of a new file is refused with 40 blocks usable.
#[test]
fn full(rt: HostRuntime) {
    let alloc = rt.alloc();
    let mut files = fresh(&rt, alloc);
    goes(&rt, alloc, &mut files, GROWN);
    goes(&rt, alloc, &mut files, FULL);
    has_usable(&rt, &files, 40);
    goes(&rt, alloc, &mut files, AGAIN);
    closes(&rt, files);
}
