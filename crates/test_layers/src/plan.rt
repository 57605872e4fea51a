//! `fo_files_plan`: `plan_along`.
use crate::asks::{Ask, Row, Wanted, works_below};

/// A way is planned and owned, so that its last file goes, and then the directory above it.
const ROWS: &[Row] = &[
    (&[1, 2, 3], Ask::Remove, Wanted::Done),
    (&[1, 2], Ask::Remove, Wanted::Done),
    (
        &[1],
        Ask::Find(b"e"),
        Wanted::Refused(b"file does not exist"),
    ),
    (&[], Ask::Find(b"d"), Wanted::Is(1, 0)),
];

/// With ample memory a way is planned.
#[test]
fn ample(rt: HostRuntime) {
    works_below(&rt, rt.alloc(), ROWS);
}
