//! `fo_put` and `fo_taking`: slots are put and cleared, and what leaves is queued. Neither wants memory.
use crate::asks::{Ask, Row, Wanted, closes, fresh, goes};
use std::process::Abort;
use test_requests::disks::On;
use test_requests::requests::FILE;

/// A file of two leaves is made.
const MADE: &[Row] = &[
    (&[], Ask::Make(b"f", FILE), Wanted::Is(1, 0)),
    (&[1], Ask::Write(8190, b"hello"), Wanted::Done),
    (&[], Ask::Sync, Wanted::Done),
];

/// It loses both leaves with their block of pointers.
const CUT: &[Row] = &[
    (&[1], Ask::Cut(0), Wanted::Done),
    (&[], Ask::Sync, Wanted::Done),
];

/// A file of one leaf is made, and goes.
const GONE: &[Row] = &[
    (&[], Ask::Make(b"g", FILE), Wanted::Is(2, 0)),
    (&[2], Ask::Write(0, b"hello"), Wanted::Done),
    (&[2], Ask::Remove, Wanted::Done),
    (&[], Ask::Sync, Wanted::Done),
];

/// So many removals are queued.
fn has_queued(rt: &impl Abort, files: &On, removals: u32) {
    assert_eq!(rt; files.on.cache.mind.queued(), removals);
}

/// What a slot no longer leads to is queued, one removal for each slot.
#[test]
fn ample(rt: HostRuntime) {
    let alloc = rt.alloc();
    let mut files = fresh(&rt, alloc);
    goes(&rt, alloc, &mut files, MADE);
    has_queued(&rt, &files, 0);
    goes(&rt, alloc, &mut files, CUT);
    has_queued(&rt, &files, 1);
    goes(&rt, alloc, &mut files, GONE);
    has_queued(&rt, &files, 2);
    closes(&rt, files);
}
