//! What is settled, and when.
use std::alloc::Global;
use test_replies::{Server, Wrong, hold};

/// A server that says whether all that was changed is settled. To ask may settle a part of it, and no more.
pub trait Settling: Server {
    fn is_settled(&mut self) -> bool;
}

/// What session 0 is asked, the bytes of the message and of its reply, in hexadecimal, and whether anything is unsettled after it.
pub type Mark = (&'static str, &'static str, &'static str, bool);

/// A file is made, written and given a length, and a Twstat that touches nothing comes after each of the first two.
pub const MARKS: &[Mark] = &[
    (
        "version",
        "13000000 64 0100 18000100 0600395032303030",
        "13000000 65 0100 18000100 0600395032303030",
        false,
    ),
    (
        "attach",
        "19000000 68 0100 00000000 ffffffff 0600676c656e6461 0000",
        "14000000 69 0100 80000000000000000000000000",
        false,
    ),
    (
        "create f",
        "13000000 72 0100 00000000 010066 a4010000 02",
        "18000000 73 0100 00000000000100000000000000 00000100",
        true,
    ),
    (
        "all is settled",
        "3e000000 7e 0100 00000000 3100 2f00ffffffffffffffffffffffffffffffffffffffffffffffffffffffffffffffffffffffffffffff0000000000000000",
        "07000000 7f 0100",
        false,
    ),
    (
        "write",
        "1c000000 76 0100 00000000 0000000000000000 05000000 68656c6c6f",
        "0b000000 77 0100 05000000",
        true,
    ),
    (
        "all is settled",
        "3e000000 7e 0100 00000000 3100 2f00ffffffffffffffffffffffffffffffffffffffffffffffffffffffffffffffffffffffffffffff0000000000000000",
        "07000000 7f 0100",
        false,
    ),
    (
        "length 1",
        "3e000000 7e 0100 00000000 3100 2f00ffffffffffffffffffffffffffffffffffffffffffffffffffffffffffffff01000000000000000000000000000000",
        "07000000 7f 0100",
        true,
    ),
];

/// A message is replied to by the bytes beside it, and leaves the files settled or not.
fn leaves<S: Settling>(alloc: Global, server: &mut S, mark: &Mark) -> Result<(), Wrong> {
    let (what, message, wanted, unsettled) = *mark;
    hold(alloc, server, &(0, what, message, wanted))?;
    if server.is_settled() == unsettled {
        return Err(Wrong::Settled(what));
    }
    Ok(())
}

/// Each message is replied to by the bytes beside it, and leaves the files settled or not.
pub fn settles<S: Settling>(alloc: Global, server: &mut S, marks: &[Mark]) -> Result<(), Wrong> {
    for mark in marks {
        leaves(alloc, server, mark)?;
    }
    Ok(())
}
