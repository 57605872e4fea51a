//! `fo_files_cut`: `cut_data`.
use crate::asks::{Ask, Row, Wanted, works};
use test_requests::requests::FILE;

/// A file of two leaves loses one, and its length is given again: what was cut is zeros.
const ROWS: &[Row] = &[
    (&[], Ask::Make(b"f", FILE), Wanted::Is(1, 0)),
    (&[1], Ask::Write(8190, b"hello"), Wanted::Done),
    (&[1], Ask::Cut(8191), Wanted::Done),
    (&[1], Ask::Info, Wanted::Is(1, 8191)),
    (&[1], Ask::Cut(8195), Wanted::Done),
    (&[1], Ask::Stands(8189, b"\0h\0\0\0\0"), Wanted::Done),
    (&[1], Ask::Cut(0), Wanted::Done),
    (&[1], Ask::Holds(b""), Wanted::Done),
];

/// With ample memory data is cut.
#[test]
fn ample(rt: HostRuntime) {
    works(&rt, rt.alloc(), ROWS);
}
