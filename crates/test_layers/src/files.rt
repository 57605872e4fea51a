//! `fo_files`: each request.
use crate::asks::{Ask, Row, Wanted, works_below};

/// Each request is granted.
const ROWS: &[Row] = &[
    (&[1, 2, 3], Ask::Info, Wanted::Is(3, 5)),
    (&[1, 2], Ask::Parent, Wanted::Is(1, 0)),
    (&[1, 2], Ask::First(b"f"), Wanted::Done),
    (&[], Ask::Sync, Wanted::Done),
    (&[1, 2, 3], Ask::Rename(b"g"), Wanted::Done),
    (&[1, 2, 3], Ask::Cut(4), Wanted::Done),
    (&[1, 2], Ask::Find(b"g"), Wanted::Is(3, 4)),
    (&[1, 2, 3], Ask::Holds(b"hell"), Wanted::Done),
    (&[], Ask::Sync, Wanted::Done),
    (&[1, 2, 3], Ask::Remove, Wanted::Done),
    (&[], Ask::Sync, Wanted::Done),
];

/// With ample memory each request is granted.
#[test]
fn ample(rt: HostRuntime) {
    works_below(&rt, rt.alloc(), ROWS);
}
