//! How often a settling calls the device.
use crate::asks::{Ask, Row, Wanted, closes, fresh, goes};
use fo_world::FileOps;
use std::alloc::Global;
use std::process::Abort;
use test_requests::disks::On;
use test_requests::requests::{DIR, FILE};

/// A file is made.
const MADE: &[Row] = &[(&[], Ask::Make(b"f", FILE), Wanted::Is(1, 0))];

/// It is written.
const WRITTEN: &[Row] = &[(&[1], Ask::Write(0, b"hello"), Wanted::Done)];

/// A directory and a file in that are made, and the file is written.
const BELOW: &[Row] = &[
    (&[], Ask::Make(b"d", DIR), Wanted::Is(2, 0)),
    (&[2], Ask::Make(b"g", FILE), Wanted::Is(3, 0)),
    (&[2, 3], Ask::Write(20_000, b"world"), Wanted::Done),
];

/// Both files are removed, of which slots wait.
const REMOVED: &[Row] = &[
    (&[2, 3], Ask::Remove, Wanted::Done),
    (&[1], Ask::Remove, Wanted::Done),
];

/// The directory is removed.
const EMPTIED: &[Row] = &[(&[2], Ask::Remove, Wanted::Done)];

/// Settles all. That calls the main device four times at most for each dirty block, and four times at most beside that.
fn settles(rt: &impl Abort, files: &mut On) {
    let dirty = files.on.cache.mind.order.dirty_len() as u64;
    let before = files.on.cache.main.calls();
    files.sync().expect(rt, "settled");
    let calls = files.on.cache.main.calls().saturating_sub(before);
    assert!(rt; calls <= dirty.saturating_mul(4).saturating_add(4));
}

/// Each row is answered as it is wanted, and then all is settled.
fn goes_settled<'a>(rt: &impl Abort, alloc: Global, files: &mut On, rows: &'a [Row<'a>]) {
    goes(rt, alloc, files, rows);
    settles(rt, files);
}

/// Over requests that make, write and remove, each settling of k dirty blocks makes at most 4k + 4 calls.
#[test]
fn few(rt: HostRuntime) {
    let alloc = rt.alloc();
    let mut files = fresh(&rt, alloc);
    for rows in [MADE, WRITTEN, BELOW, &[], REMOVED, EMPTIED] {
        goes_settled(&rt, alloc, &mut files, rows);
    }
    closes(&rt, files);
}
