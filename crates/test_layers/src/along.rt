//! `fo_files_along`: `reserve_room`, `own_along`, `own_dir_along` and `spare_for`.
use crate::asks::{Ask, Row, Wanted, works_below};
use test_requests::requests::FILE;

/// The way to a file is owned, and that to a directory below the root and to the root.
const ROWS: &[Row] = &[
    (&[1, 2, 3], Ask::Write(5, b" you"), Wanted::Done),
    (&[1, 2, 3], Ask::Info, Wanted::Is(3, 9)),
    (&[1, 2, 3], Ask::Stands(4, b"o you"), Wanted::Done),
    (&[1, 2], Ask::Make(b"g", FILE), Wanted::Is(4, 0)),
    (&[], Ask::Make(b"h", FILE), Wanted::Is(5, 0)),
];

/// With ample memory ways are owned.
#[test]
fn ample(rt: HostRuntime) {
    works_below(&rt, rt.alloc(), ROWS);
}
