//! `fo_files_record`: `read`, `take_out` and `put_own_record`.
use crate::asks::{Ask, Row, Wanted, works_below};
use test_requests::requests::DIR;

/// A record changes, and goes; and the own record of the root changes.
const ROWS: &[Row] = &[
    (&[1, 2, 3], Ask::Rename(b"gh"), Wanted::Done),
    (&[1, 2], Ask::Find(b"gh"), Wanted::Is(3, 5)),
    (&[1, 2, 3], Ask::Remove, Wanted::Done),
    (
        &[1, 2],
        Ask::Find(b"gh"),
        Wanted::Refused(b"file does not exist"),
    ),
    (&[], Ask::Mark(DIR), Wanted::Done),
    (&[], Ask::State, Wanted::Is(DIR as u64, 100)),
];

/// With ample memory records change.
#[test]
fn ample(rt: HostRuntime) {
    works_below(&rt, rt.alloc(), ROWS);
}
