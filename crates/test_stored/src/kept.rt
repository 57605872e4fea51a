//! Conversations, and what they leave on the disks.

use crate::disks::{Disks, formatted, report};
use crate::stored::{Failure, Turns, held};
use std::alloc::Global;
use std::test::Fail;
use test_conversations::conversations::{
    AMPLE, CHANGES, DIRECTORIES, DROPPED, FOUND_UNTIL, KNOWN, MODES, RIGHTS, ROOT, TWO_FILES,
    TWO_SESSIONS, UNKNOWN, USERS, VERSIONS, WALKS, WRITES,
};
use test_conversations::{Conversation, Part};

/// The image is sound, with so many used blocks, and none that left the tree and was not closed.
fn is_sound(alloc: Global, disks: &mut Disks, used: u32) -> Result<(), Failure> {
    let report = report(alloc, disks)?;
    if (report.used, report.leaked) == (used, 0) {
        Ok(())
    } else {
        Err(Failure::Blocks(report.used, report.leaked))
    }
}

/// These disks, which are sound.
pub fn sound(alloc: Global, disks: Disks, used: u32) -> Result<Disks, Failure> {
    let mut disks = disks;
    is_sound(alloc, &mut disks, used)?;
    Ok(disks)
}

/// A conversation is held over disks that are formatted at this moment, and what it left is found when they are opened again.
fn keeps(
    alloc: Global,
    made: u32,
    turns: Turns,
    conversation: &Conversation,
    used: u32,
) -> Result<(), Failure> {
    let disks = formatted(alloc, made)?;
    let disks = held(alloc, disks, turns, conversation.parts)?;
    let disks = sound(alloc, disks, used)?;
    let disks = held(alloc, disks, turns, &[Part::Says(conversation.found)])?;
    sound(alloc, disks, used)?;
    Ok(())
}

/// The same with no turn, so that the end alone closes what left the tree, and with turns.
fn holds(alloc: Global, made: u32, conversation: &Conversation, used: u32) -> Result<(), Failure> {
    keeps(alloc, made, Turns::Never, conversation, used)?;
    keeps(alloc, made, Turns::Between, conversation, used)
}

/// Each kind of event, an opening and an end, with enough memory.
#[test]
fn ample(rt: HostRuntime) -> Result<(), Fail> {
    holds(rt.alloc(), 0, &AMPLE, 3)?;
    holds(rt.alloc(), 0, &TWO_SESSIONS, 3)?;
    Ok(())
}

// How many blocks are used: the root block, a leaf of entries and one of records of each directory in which a file was made, and a leaf of
// data for each piece of 8192 bytes in which something stands. The largest file has three leaves of data, below four levels of pointers:
// one block at the top, and two at each level below it.
#[test]
fn conversations(rt: HostRuntime) -> Result<(), Fail> {
    for (conversation, used) in [
        (VERSIONS, 1),
        (WALKS, 3),
        (WRITES, 13),
        (DIRECTORIES, 4),
        (CHANGES, 4),
        (RIGHTS, 4),
        (MODES, 4),
        (USERS, 7),
        (DROPPED, 4),
        (FOUND_UNTIL, 3),
        (KNOWN, 6),
        (UNKNOWN, 3),
        (TWO_FILES, 3),
    ] {
        holds(rt.alloc(), 0, &conversation, used)?;
    }
    Ok(())
}

/// The root is made at the moment of the format.
#[test]
fn root(rt: HostRuntime) -> Result<(), Fail> {
    holds(rt.alloc(), 7, &ROOT, 1)?;
    Ok(())
}
