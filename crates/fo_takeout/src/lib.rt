//! Which blocks leave the tree of memory with one put, for the queue of removals.
//!
//! A slot led to a block, and leads to another one now. A walk goes down both at once, a pair of blocks after the other, slot by slot,
//! and gives removals for `Queue` of `fo_unlink`, parents before children: a block alone where its copy came, and then what the slots
//! of both say; the whole below a slot that leads nowhere now; a level that a source lost alone, and what hung from its other slots
//! whole. What stays where it was, or below a new top, is no pair. The caller gives the bytes of the two blocks that are looked at, as
//! `change` asks for them, and begins no walk for a block that is not in the tree.
//!
//! Proved: each step gives exactly what the next item of the first pair says (`item` of specs/Meeting.antt), and lowers the work that
//! is left, whatever the blocks hold. A removal that is given may be queued. Want of memory may be answered by `reserve` alone; a pair
//! for which there is no room is not looked at.
//!
//! Not proved: that bytes are those of the blocks that the slots lead to, and that there is room for each pair.
#![tactic(auto)]

mod pair;
mod walk;

pub use pair::{Below, Change, Met, Pair};
pub use walk::{Answer, Put, Walk};
