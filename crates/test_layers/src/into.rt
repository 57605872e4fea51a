//! `fo_files_into`: `write_into` and `change_into`.
use crate::asks::{Ask, Row, Wanted, works_below};

/// A piece is written into a file that was cut.
const ROWS: &[Row] = &[
    (&[1, 2, 3], Ask::Cut(4), Wanted::Done),
    (&[1, 2, 3], Ask::Write(4, b"p me"), Wanted::Done),
    (&[1, 2, 3], Ask::Holds(b"hellp me"), Wanted::Done),
];

/// With ample memory the data of a file changes.
#[test]
fn ample(rt: HostRuntime) {
    works_below(&rt, rt.alloc(), ROWS);
}
