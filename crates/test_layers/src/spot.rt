//! `fo_files_spot`: `spot_for`, `stands_alone`, `settle_unless` and `is_full`.
use crate::asks::{Ask, Row, Wanted, works};
use test_requests::requests::FILE;

/// A leaf of entries has 102 pairs; the file after so many goes into a second leaf. So many long names take two leaves of records: the names of
/// later files go into the first, where others were removed, once while the second was changed and not settled, and once after a sync.
const ROWS: &[Row] = &[
    (&[], Ask::Crowd(1, 103), Wanted::Done),
    (&[], Ask::FindLong(1), Wanted::Is(1, 0)),
    (&[], Ask::FindLong(102), Wanted::Is(102, 0)),
    (&[], Ask::FindLong(103), Wanted::Is(103, 0)),
    (&[1], Ask::Remove, Wanted::Done),
    (&[], Ask::Make(b"n", FILE), Wanted::Is(104, 0)),
    (&[2], Ask::Remove, Wanted::Done),
    (&[], Ask::Sync, Wanted::Done),
    (&[], Ask::Make(b"s", FILE), Wanted::Is(105, 0)),
    (&[], Ask::Find(b"n"), Wanted::Is(104, 0)),
    (&[], Ask::Find(b"s"), Wanted::Is(105, 0)),
];

/// With ample memory there is a place for each of 103 files, and for files after them.
#[test]
fn ample(rt: HostRuntime) {
    works(&rt, rt.alloc(), ROWS);
}
