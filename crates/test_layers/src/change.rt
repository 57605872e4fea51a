//! `fo_files_change`: `records_leaf` and `take_file`.
use crate::asks::{Ask, Row, Wanted, works_below};

/// The record of a file changes in its leaf, and goes.
const ROWS: &[Row] = &[
    (&[1, 2, 3], Ask::Mark(0o400), Wanted::Done),
    (&[1, 2, 3], Ask::State, Wanted::Is(0o400, 101)),
    (&[1, 2, 3], Ask::Remove, Wanted::Done),
    (&[1, 2, 3], Ask::Info, Wanted::Refused(b"file is gone")),
];

/// With ample memory a record changes, and goes.
#[test]
fn ample(rt: HostRuntime) {
    works_below(&rt, rt.alloc(), ROWS);
}
