//! `fo_files_rename`: `change_file`.
use crate::asks::{Ask, Row, Wanted, works_below};

/// Files in the root and below it have the names that they are given, and a length.
const ROWS: &[Row] = &[
    (&[1], Ask::Rename(b"c"), Wanted::Done),
    (&[1, 2, 3], Ask::Rename(b"g"), Wanted::Done),
    (&[1, 2, 3], Ask::Cut(7), Wanted::Done),
    (&[], Ask::Find(b"c"), Wanted::Is(1, 0)),
    (
        &[],
        Ask::Find(b"d"),
        Wanted::Refused(b"file does not exist"),
    ),
    (&[1, 2], Ask::Find(b"g"), Wanted::Is(3, 7)),
    (&[1, 2, 3], Ask::Holds(b"hello\0\0"), Wanted::Done),
];

/// With ample memory files have the names that they are given.
#[test]
fn ample(rt: HostRuntime) {
    works_below(&rt, rt.alloc(), ROWS);
}
