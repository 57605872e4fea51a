//! The records of a directory, leaf by leaf: the next name, that of a number, how many there are, and where one more goes.
//!
//! A name is *after* another where it is greater, byte by byte; each name is after the empty one, which no record has.
//!
//! Proved, over any blocks and any source: the calls only look, take at most the pins that reading each leaf takes, and refuse by
//! their causes alone. Where the device tells, `next` gives a record of the least name after the one given, among all that memory
//! has, or says that none is after it; so calls from the empty name on, each after the name before, give every name once and
//! in ascending order. `count` gives how many records there are, and `leaf_for` the first leaf with room for so many bytes, or one
//! behind the last. `numbered` gives the first record of a file number, or says that none has it. Over any device a name that is next
//! is after the one given, so each listing ends, and the record of a number has it, in a leaf of the source.
#![tactic(auto)]

mod leaf;
mod list;
mod number;
mod rooms;

pub use list::next;
pub use number::numbered;
pub use rooms::{count, leaf_for};
