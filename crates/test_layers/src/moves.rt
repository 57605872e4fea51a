//! `fo_files_move`: `move_between`, in which `move_record` of `fo_dir_move` moves a record.
use crate::asks::{Ask, Row, Wanted, works};
use test_requests::requests::FILE;

/// A leaf has a record of 44 bytes and 76 of 107, and 12 bytes are left: so the first moves to a second leaf where its name gets longer.
const ROWS: &[Row] = &[
    (&[], Ask::Make(b"f", FILE), Wanted::Is(1, 0)),
    (&[], Ask::Crowd(2, 76), Wanted::Done),
    (&[1], Ask::RenameLong(1), Wanted::Done),
    (&[], Ask::FindLong(1), Wanted::Is(1, 0)),
    (
        &[],
        Ask::Find(b"f"),
        Wanted::Refused(b"file does not exist"),
    ),
    (&[], Ask::FindLong(77), Wanted::Is(77, 0)),
];

/// With ample memory a record moves to another leaf.
#[test]
fn ample(rt: HostRuntime) {
    works(&rt, rt.alloc(), ROWS);
}
