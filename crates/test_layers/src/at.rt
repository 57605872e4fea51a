//! `fo_files_at`: `root_file`, `at_place` with `one_down`, `below`, `entries_of`, `records_of` and `data_of`.
use crate::asks::{Ask, Row, Wanted, works_below};

/// Each file of a way of three is found, and the last one's bytes.
const ROWS: &[Row] = &[
    (&[], Ask::Info, Wanted::Is(0, 0)),
    (&[1], Ask::Info, Wanted::Is(1, 0)),
    (&[1, 2], Ask::Info, Wanted::Is(2, 0)),
    (&[1, 2, 3], Ask::Info, Wanted::Is(3, 5)),
    (&[1, 2, 3], Ask::Holds(b"hello"), Wanted::Done),
];

/// With ample memory files are found.
#[test]
fn ample(rt: HostRuntime) {
    works_below(&rt, rt.alloc(), ROWS);
}
