//! `fo_tree`: `read`, `leaf` and `prepare` of a source.
use crate::asks::{Ask, Row, Wanted, works};
use test_requests::requests::FILE;

/// Two leaves of a source with a hole in between are prepared, written, and read over each border.
const ROWS: &[Row] = &[
    (&[], Ask::Make(b"f", FILE), Wanted::Is(1, 0)),
    (&[1], Ask::Fill(0, 1), Wanted::Done),
    (&[1], Ask::Write(16_384, b"ab"), Wanted::Done),
    (&[1], Ask::Write(8191, b"xy"), Wanted::Done),
    (&[1], Ask::Info, Wanted::Is(1, 16_386)),
    (&[1], Ask::Stands(8190, b"\x07xy\0"), Wanted::Done),
    (&[1], Ask::Stands(16_383, b"\0ab"), Wanted::Done),
];

/// With ample memory a source is read and prepared.
#[test]
fn ample(rt: HostRuntime) {
    works(&rt, rt.alloc(), ROWS);
}
