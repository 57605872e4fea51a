//! What is settled stays without an end.

use crate::disks::{Disks, formatted};
use crate::kept::sound;
use crate::stored::{Failure, Stored, Turns, held, where_said};
use std::alloc::Global;
use std::test::Fail;
use test_conversations::{MARKS, Mark, Part, settles};
use test_replies::Row;
use test_replies::left::{EMPTY, HELLO, SHORT};

/// The file after `f` has the number 2 over files in memory, and where the system had an end. With none, all of the 1,024 numbers that the
/// super block was settled for may have been given.
const NEXT: &[Row] = &[
    (
        0,
        "the root",
        "11000000 6e 0100 00000000 09000000 0000",
        "09000000 6f 0100 0000",
    ),
    (
        0,
        "the next file",
        "16000000 72 0100 09000000 04006e657874 a4010000 01",
        "18000000 73 0100 00000000000104000000000000 00000100",
    ),
];

/// The disks without an end, once each message was replied to, and left the files settled or not.
fn closed(alloc: Global, disks: Disks, marks: &[Mark]) -> Result<Disks, Failure> {
    let mut stored = Stored::open(alloc, disks, Turns::Never)?;
    let said = settles(alloc, &mut stored, marks);
    where_said(said, stored.close())
}

/// The same with an end.
fn finished(alloc: Global, disks: Disks, marks: &[Mark]) -> Result<Disks, Failure> {
    let mut stored = Stored::open(alloc, disks, Turns::Never)?;
    let said = settles(alloc, &mut stored, marks);
    where_said(said, stored.finish())
}

/// What is found where the system has no end once so many messages were replied to, of which the last settled all: so many blocks are used.
fn stays(alloc: Global, count: usize, used: u32, parts: &[Part]) -> Result<(), Failure> {
    let disks = formatted(alloc, 0)?;
    let disks = closed(alloc, disks, MARKS.get(..count).unwrap_or(MARKS))?;
    let disks = sound(alloc, disks, used)?;
    held(alloc, disks, Turns::Never, parts)?;
    Ok(())
}

/// What was changed is unsettled until a Twstat that touches nothing is answered, and stays from then on.
#[test]
fn settled(rt: HostRuntime) -> Result<(), Fail> {
    stays(rt.alloc(), 4, 3, &[Part::Says(EMPTY)])?;
    stays(rt.alloc(), 6, 4, &[Part::Says(HELLO), Part::Says(NEXT)])?;
    Ok(())
}

/// All is settled by an end.
fn ends(alloc: Global) -> Result<(), Failure> {
    let disks = finished(alloc, formatted(alloc, 0)?, MARKS)?;
    let disks = sound(alloc, disks, 4)?;
    held(alloc, disks, Turns::Never, &[Part::Says(SHORT)])?;
    Ok(())
}

#[test]
fn ended(rt: HostRuntime) -> Result<(), Fail> {
    ends(rt.alloc())?;
    Ok(())
}
