//! `fo_files_new`: `ready_both` and `new_file`.
use crate::asks::{Ask, Row, Wanted, works};
use test_requests::requests::FILE;

/// The first file of a directory is put into new leaves, and the second beside it.
const ROWS: &[Row] = &[
    (&[], Ask::Make(b"f", FILE), Wanted::Is(1, 0)),
    (&[], Ask::Make(b"g", FILE), Wanted::Is(2, 0)),
    (&[2], Ask::Write(0, b"hello"), Wanted::Done),
    (&[], Ask::Find(b"f"), Wanted::Is(1, 0)),
    (&[2], Ask::Info, Wanted::Is(2, 5)),
    (&[2], Ask::Holds(b"hello"), Wanted::Done),
];

/// With ample memory new files are put into their directory.
#[test]
fn ample(rt: HostRuntime) {
    works(&rt, rt.alloc(), ROWS);
}
