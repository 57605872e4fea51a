//! `fo_files_way`: `at_root`, `add` and `add_entries`.
use crate::asks::{Ask, Row, Wanted, works_below};

/// The leaves down to a record are made ready, so that it changes.
const ROWS: &[Row] = &[
    (&[1, 2, 3], Ask::Rename(b"g"), Wanted::Done),
    (&[1, 2], Ask::Find(b"g"), Wanted::Is(3, 5)),
];

/// With ample memory a way is made ready.
#[test]
fn ample(rt: HostRuntime) {
    works_below(&rt, rt.alloc(), ROWS);
}
