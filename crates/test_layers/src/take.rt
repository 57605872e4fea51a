//! `fo_files_take`: `remove_file`.
use crate::asks::{Ask, Row, Wanted, works_below};

/// A file goes, and each directory above it.
const ROWS: &[Row] = &[
    (&[1, 2, 3], Ask::Remove, Wanted::Done),
    (&[1, 2, 3], Ask::Info, Wanted::Refused(b"file is gone")),
    (&[1, 2], Ask::Info, Wanted::Is(2, 0)),
    (&[1, 2], Ask::Remove, Wanted::Done),
    (&[1], Ask::Remove, Wanted::Done),
    (&[1], Ask::Info, Wanted::Refused(b"file is gone")),
];

/// With ample memory files are removed.
#[test]
fn ample(rt: HostRuntime) {
    works_below(&rt, rt.alloc(), ROWS);
}
