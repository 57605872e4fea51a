//! `fo_files_edit`: `found_at`, `root_record`, `change_below` and `change_root`.
use crate::asks::{Ask, Row, Wanted, works_below};
use test_requests::requests::DIR;

/// A file has the mode and the length that it is given, and so has the root its mode.
const ROWS: &[Row] = &[
    (&[1, 2, 3], Ask::Mark(0o600), Wanted::Done),
    (&[1, 2, 3], Ask::State, Wanted::Is(0o600, 101)),
    (&[1, 2, 3], Ask::Cut(2), Wanted::Done),
    (&[1, 2, 3], Ask::Holds(b"he"), Wanted::Done),
    (&[], Ask::Mark(DIR), Wanted::Done),
    (&[], Ask::State, Wanted::Is(DIR as u64, 100)),
];

/// With ample memory what is said of a file changes.
#[test]
fn ample(rt: HostRuntime) {
    works_below(&rt, rt.alloc(), ROWS);
}
