//! Each call on files with ample memory, and what stays of them.
use crate::asks::{Ask, Row, Wanted, closes, fresh, goes, works};
use std::alloc::Global;
use std::process::Abort;
use test_requests::disks::{Disks, Left, checked, closed, opened};
use test_requests::requests::{DIR, FILE};

/// Each call is granted for a file with five bytes in the root.
const ROWS: &[Row] = &[
    (&[], Ask::Make(b"f", FILE), Wanted::Is(1, 0)),
    (&[1], Ask::Write(0, b"hello"), Wanted::Done),
    (&[1], Ask::Holds(b"hello"), Wanted::Done),
    (&[1], Ask::Info, Wanted::Is(1, 5)),
    (&[], Ask::Find(b"f"), Wanted::Is(1, 5)),
    (&[1], Ask::Parent, Wanted::Is(0, 0)),
    (&[], Ask::First(b"f"), Wanted::Done),
    (&[1], Ask::Rename(b"g"), Wanted::Done),
    (&[], Ask::Sync, Wanted::Done),
    (&[1], Ask::Remove, Wanted::Done),
];

#[test]
fn ample(rt: HostRuntime) {
    works(&rt, rt.alloc(), ROWS);
}

/// A file, a directory and a file in that are made, both files are written, and all is settled.
const MADE: &[Row] = &[
    (&[], Ask::Make(b"f", FILE), Wanted::Is(1, 0)),
    (&[1], Ask::Write(0, b"hello"), Wanted::Done),
    (&[], Ask::Make(b"d", DIR), Wanted::Is(2, 0)),
    (&[2], Ask::Make(b"g", FILE), Wanted::Is(3, 0)),
    (&[2, 3], Ask::Write(3, b"world"), Wanted::Done),
    (&[], Ask::Sync, Wanted::Done),
];

/// All that was made is there, and has its bytes.
const THERE: &[Row] = &[
    (&[], Ask::Find(b"f"), Wanted::Is(1, 5)),
    (&[1], Ask::Holds(b"hello"), Wanted::Done),
    (&[], Ask::Find(b"d"), Wanted::Is(2, 0)),
    (&[2], Ask::Find(b"g"), Wanted::Is(3, 8)),
    (&[2, 3], Ask::Holds(b"\0\0\0world"), Wanted::Done),
];

/// What is left of disks on which all was made, found and settled.
fn filled(rt: &impl Abort, alloc: Global) -> Left {
    let mut files = fresh(rt, alloc);
    goes(rt, alloc, &mut files, MADE);
    goes(rt, alloc, &mut files, THERE);
    closed(files).expect(rt, "devices of their sizes")
}

/// All that was made is there on these disks.
fn holds_all(rt: &impl Abort, alloc: Global, disks: Disks) {
    let mut files = opened(alloc, disks).expect(rt, "opened");
    goes(rt, alloc, &mut files, THERE);
    closes(rt, files);
}

/// All stays after a settling, also with the oldest version of each block. Used are the root block, a leaf of entries and one of records of each
/// directory, and a leaf of data of each file.
#[test]
fn stays(rt: HostRuntime) {
    let alloc = rt.alloc();
    let left = filled(&rt, alloc);
    let mut disks = left.image(0, 0).expect(&rt, "memory");
    assert_eq!(&rt; checked(alloc, &mut disks), Some((7, 0)));
    holds_all(&rt, alloc, disks);
}
