//! `fo_files_ready`: `ready_record`.
use crate::asks::{Ask, Row, Wanted, works};
use test_requests::requests::FILE;

/// A record changes in its place where it has room, and else moves before, to a leaf that is there.
const ROWS: &[Row] = &[
    (&[], Ask::Make(b"f", FILE), Wanted::Is(1, 0)),
    (&[1], Ask::Rename(b"g"), Wanted::Done),
    (&[], Ask::Crowd(2, 77), Wanted::Done),
    (&[1], Ask::RenameLong(1), Wanted::Done),
    (&[], Ask::FindLong(1), Wanted::Is(1, 0)),
    (&[], Ask::FindLong(78), Wanted::Is(78, 0)),
];

/// With ample memory a record is made ready.
#[test]
fn ample(rt: HostRuntime) {
    works(&rt, rt.alloc(), ROWS);
}
