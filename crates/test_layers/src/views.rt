//! `fo_files_views`: `info`, `parent`, `find`, `next_name` and `read`, of the active tree and beside it.
use crate::asks::{Ask, NEST, Row, Wanted, closes, fresh, goes, place};
use fo_world::{FileError, FileOps, Place, View};
use std::process::Abort;
use test_requests::disks::On;

/// The years of the snapshots.
const YEARS: View = View::Dated {
    archive: false,
    year: 0,
    monthday: 0,
};

/// Each look answers in the active tree.
const ROWS: &[Row] = &[
    (&[1], Ask::Info, Wanted::Is(1, 0)),
    (&[1], Ask::Parent, Wanted::Is(0, 0)),
    (&[1, 2], Ask::Find(b"f"), Wanted::Is(3, 5)),
    (&[], Ask::First(b"d"), Wanted::Done),
    (&[1, 2, 3], Ask::Holds(b"hello"), Wanted::Done),
];

/// A dated directory is told of, and has no names.
fn is_empty(rt: &impl Abort, files: &mut On, at: &Place) {
    assert!(rt; files.info(at).is_ok());
    assert!(rt; files.parent(at).is_ok());
    assert!(rt; matches!(files.next_name(at, None), Ok(None)));
    assert!(rt; matches!(files.find(at, b"f"), Err(FileError::Absent)));
}

/// With ample memory each look answers in all views that there are.
#[test]
fn ample(rt: HostRuntime) {
    let alloc = rt.alloc();
    let mut files = fresh(&rt, alloc);
    goes(&rt, alloc, &mut files, NEST);
    goes(&rt, alloc, &mut files, ROWS);
    let years = place(alloc, YEARS, &[]).expect(&rt, "memory");
    is_empty(&rt, &mut files, &years);
    closes(&rt, files);
}
