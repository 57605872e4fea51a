//! What is refused, and what a change of a name leaves. The texts are those of docs/PROTOCOL.md.
use crate::asks::{Ask, Row, Wanted, works};
use test_requests::requests::{DIR, FILE};

/// A file, a directory and a file in that are made, and what is refused of them; then the last two go.
const ROWS: &[Row] = &[
    (&[], Ask::Make(b"f", FILE), Wanted::Is(1, 0)),
    (&[], Ask::Make(b"d", DIR), Wanted::Is(2, 0)),
    (&[2], Ask::Make(b"g", FILE), Wanted::Is(3, 0)),
    // A name that is there can't be made or given again, and what isn't there is absent or gone.
    (&[], Ask::Make(b"f", FILE), Wanted::Refused(b"file exists")),
    (&[1], Ask::Rename(b"d"), Wanted::Refused(b"file exists")),
    (
        &[],
        Ask::Find(b"g"),
        Wanted::Refused(b"file does not exist"),
    ),
    (&[4], Ask::Remove, Wanted::Refused(b"file is gone")),
    (&[2, 4], Ask::Info, Wanted::Refused(b"file is gone")),
    // A file has another name and the same number after a rename.
    (&[1], Ask::Rename(b"other"), Wanted::Done),
    (
        &[],
        Ask::Find(b"f"),
        Wanted::Refused(b"file does not exist"),
    ),
    (&[], Ask::Find(b"other"), Wanted::Is(1, 0)),
    // A file is no directory, a directory takes no bytes, and one with a name isn't removed.
    (
        &[1],
        Ask::Make(b"x", FILE),
        Wanted::Refused(b"not a directory"),
    ),
    (&[1], Ask::Find(b"x"), Wanted::Refused(b"not a directory")),
    (
        &[2],
        Ask::Write(0, b"x"),
        Wanted::Refused(b"is a directory"),
    ),
    (&[2], Ask::Remove, Wanted::Refused(b"directory not empty")),
    (&[2, 3], Ask::Remove, Wanted::Done),
    (&[2], Ask::Remove, Wanted::Done),
    (&[2], Ask::Remove, Wanted::Refused(b"file is gone")),
];

#[test]
fn refused(rt: HostRuntime) {
    works(&rt, rt.alloc(), ROWS);
}
