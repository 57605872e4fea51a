//! `fo_files_look`: `info`, `parent`, `find`, `next_name` and `read`.
use crate::asks::{Ask, Row, Wanted, works_below};

/// Each look answers.
const ROWS: &[Row] = &[
    (&[1, 2, 3], Ask::Info, Wanted::Is(3, 5)),
    (&[1, 2, 3], Ask::Parent, Wanted::Is(2, 0)),
    (&[1, 2], Ask::Find(b"f"), Wanted::Is(3, 5)),
    (&[1], Ask::First(b"e"), Wanted::Done),
    (&[1, 2, 3], Ask::Holds(b"hello"), Wanted::Done),
];

/// With ample memory each look answers.
#[test]
fn ample(rt: HostRuntime) {
    works_below(&rt, rt.alloc(), ROWS);
}
