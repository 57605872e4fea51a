//! Lines read.
use fo_lines::{Line, line_of};
use std::alloc::Global;
use std::process::Abort;
use std::test::Fail;

/// The letter of a line, its number (0 where it has none), and its bytes.
type Parts<'a> = (u8, u32, &'a [u8]);

/// A line, and its parts.
type Row = (&'static str, u8, u32, &'static [u8]);

/// The parts of a line.
fn parts(line: &Line) -> Parts<'_> {
    match line {
        Line::Moment(seconds) => (b't', *seconds, b"".as_slice()),
        Line::Message { session, bytes } => (b's', u32::from(*session), bytes.as_slice()),
        Line::Drops(session) => (b'h', u32::from(*session), b"".as_slice()),
        Line::Console(line) => (b'c', 0, line.as_slice()),
        Line::Flush => (b'f', 0, b"".as_slice()),
        Line::Unlink => (b'u', 0, b"".as_slice()),
        Line::Archive => (b'a', 0, b"".as_slice()),
        Line::FlushAll => (b'F', 0, b"".as_slice()),
        Line::ArchiveAll => (b'A', 0, b"".as_slice()),
    }
}

/// Each form.
const LINES: &[Row] = &[
    ("t 0", b't', 0, b""),
    ("t 60", b't', 60, b""),
    ("t 4294967295", b't', 4_294_967_295, b""),
    (
        "s 0 0b0000007801000000",
        b's',
        0,
        b"\x0b\x00\x00\x00\x78\x01\x00\x00\x00",
    ),
    ("s 9 ff", b's', 9, b"\xff"),
    ("s 15 7f", b's', 15, b"\x7f"),
    ("h 0", b'h', 0, b""),
    ("h 10", b'h', 10, b""),
    ("c snap -a", b'c', 0, b"snap -a"),
    ("c ", b'c', 0, b""),
    ("f", b'f', 0, b""),
    ("u", b'u', 0, b""),
    ("a", b'a', 0, b""),
    ("F", b'F', 0, b""),
    ("A", b'A', 0, b""),
];

/// No line.
const NONE: &[&str] = &[
    "",
    "g",
    "f ",
    "c",
    "t",
    "t ",
    "t 01",
    "t +1",
    "t -1",
    "t 1 ",
    "t  1",
    "t 4294967296",
    "t 0x1",
    "T 1",
    "h",
    "h ",
    "h 00",
    "h 05",
    "h 16",
    "h 7 ",
    "h 100",
    "s 0",
    "s 16 00",
    "s 00 00",
    "s 0 0",
    "s 0 0B",
    "s 0 0g",
    "s 0 00 ",
    "s 0  00",
    "s  00",
];

/// The line is read as its parts.
fn row(rt: &impl Abort, alloc: Global, row: &Row) -> Result<(), Fail> {
    let (text, letter, number, bytes) = *row;
    let line = line_of(alloc, text.as_bytes())?;
    let found = line.as_ref().map(parts);
    assert!(rt; found == Some((letter, number, bytes)), "{text}");
    Ok(())
}

/// The text is no line.
fn none(rt: &impl Abort, alloc: Global, text: &str) -> Result<(), Fail> {
    let line = line_of(alloc, text.as_bytes())?;
    assert!(rt; line.is_none(), "{text}");
    Ok(())
}

#[test]
fn ample(rt: HostRuntime) -> Result<(), Fail> {
    for line in LINES {
        row(&rt, rt.alloc(), line)?;
    }
    Ok(())
}

#[test]
fn no_lines(rt: HostRuntime) -> Result<(), Fail> {
    for text in NONE {
        none(&rt, rt.alloc(), text)?;
    }
    Ok(())
}
