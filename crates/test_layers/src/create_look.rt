//! `fo_files_create_look`: `look_for_new`.
use crate::asks::{Ask, Row, Wanted, works_below};
use test_requests::requests::FILE;

/// A name that is free is granted where one that is taken was refused.
const ROWS: &[Row] = &[
    (
        &[1, 2],
        Ask::Make(b"f", FILE),
        Wanted::Refused(b"file exists"),
    ),
    (&[1, 2], Ask::Make(b"g", FILE), Wanted::Is(4, 0)),
];

/// With ample memory a free name is granted.
#[test]
fn ample(rt: HostRuntime) {
    works_below(&rt, rt.alloc(), ROWS);
}
