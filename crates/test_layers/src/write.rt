//! `fo_files_write`: `write_data`.
use crate::asks::{Ask, Row, Wanted, works};
use test_requests::requests::FILE;

/// Bytes are written into a file of one leaf, behind its end, and beyond the room of two levels of pointers.
const ROWS: &[Row] = &[
    (&[], Ask::Make(b"f", FILE), Wanted::Is(1, 0)),
    (&[1], Ask::Write(0, b"a"), Wanted::Done),
    (&[1], Ask::Write(8192, b"b"), Wanted::Done),
    (&[1], Ask::Write(1 << 30, b"c"), Wanted::Done),
    (&[1], Ask::Info, Wanted::Is(1, (1 << 30) + 1)),
    (&[1], Ask::Stands(0, b"a\0"), Wanted::Done),
    (&[1], Ask::Stands(8191, b"\0b\0"), Wanted::Done),
    (&[1], Ask::Stands((1 << 30) - 1, b"\0c"), Wanted::Done),
];

/// With ample memory data is written.
#[test]
fn ample(rt: HostRuntime) {
    works(&rt, rt.alloc(), ROWS);
}
