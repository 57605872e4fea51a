//! `fo_files_own`: `ready_own` and `copied`.
use crate::asks::{Ask, Row, Wanted, works_below};
use test_requests::requests::{DIR, FILE};

/// The own record of a directory, and that of the root, has the time of what was done last in it.
const ROWS: &[Row] = &[
    (&[1, 2], Ask::State, Wanted::Is(DIR as u64, 100)),
    (&[1, 2, 3], Ask::Remove, Wanted::Done),
    (&[1, 2], Ask::State, Wanted::Is(DIR as u64, 102)),
    (&[], Ask::Make(b"g", FILE), Wanted::Is(4, 0)),
    (&[], Ask::State, Wanted::Is(0x8000_01ff, 100)),
    (&[1], Ask::State, Wanted::Is(DIR as u64, 100)),
];

/// With ample memory the own record of a directory changes.
#[test]
fn ample(rt: HostRuntime) {
    works_below(&rt, rt.alloc(), ROWS);
}
