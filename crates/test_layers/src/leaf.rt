//! `fo_files_leaf`: `ready_leaf`, `source_for` and `trim_records`.
use crate::asks::{Ask, Row, Wanted, works};

/// A leaf has room for 76 records of 107 bytes; the next one goes into a second, from which it is removed.
const ROWS: &[Row] = &[
    (&[], Ask::Crowd(1, 78), Wanted::Done),
    (&[], Ask::FindLong(76), Wanted::Is(76, 0)),
    (&[], Ask::FindLong(77), Wanted::Is(77, 0)),
    (&[77], Ask::Remove, Wanted::Done),
    (
        &[],
        Ask::FindLong(77),
        Wanted::Refused(b"file does not exist"),
    ),
    (&[], Ask::FindLong(78), Wanted::Is(78, 0)),
];

/// With ample memory a second leaf is made ready.
#[test]
fn ample(rt: HostRuntime) {
    works(&rt, rt.alloc(), ROWS);
}
