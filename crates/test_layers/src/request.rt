//! `fo_files_request`: `write_file`.
use crate::asks::{Ask, Row, Wanted, works_below};

/// A piece is written at the beginning, and one over the border of two leaves.
const ROWS: &[Row] = &[
    (&[1, 2, 3], Ask::Write(0, b"J"), Wanted::Done),
    (&[1, 2, 3], Ask::Write(8190, b"hello"), Wanted::Done),
    (&[1, 2, 3], Ask::Info, Wanted::Is(3, 8195)),
    (&[1, 2, 3], Ask::Stands(0, b"Jello\0\0\0"), Wanted::Done),
    (&[1, 2, 3], Ask::Stands(8189, b"\0hello"), Wanted::Done),
];

/// With ample memory a write is granted.
#[test]
fn ample(rt: HostRuntime) {
    works_below(&rt, rt.alloc(), ROWS);
}
