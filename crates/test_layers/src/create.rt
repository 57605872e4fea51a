//! `fo_files_create`: `create_file`.
use crate::asks::{Ask, Row, Wanted, works_below};
use test_requests::requests::{DIR, FILE};

/// Files and directories are made, in the root and below it, each with the next number.
const ROWS: &[Row] = &[
    (&[1], Ask::Make(b"g", DIR), Wanted::Is(4, 0)),
    (&[1, 4], Ask::Make(b"g", FILE), Wanted::Is(5, 0)),
    (&[], Ask::Make(b"g", FILE), Wanted::Is(6, 0)),
    (&[1], Ask::Find(b"g"), Wanted::Is(4, 0)),
    (&[1, 4], Ask::Find(b"g"), Wanted::Is(5, 0)),
    (&[], Ask::Find(b"g"), Wanted::Is(6, 0)),
];

/// With ample memory files are made.
#[test]
fn ample(rt: HostRuntime) {
    works_below(&rt, rt.alloc(), ROWS);
}
