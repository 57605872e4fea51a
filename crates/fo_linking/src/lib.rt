//! Who comes into the tree of memory when a slot is put into a block there: what the slot leads to, and what hangs from that by blocks that
//! were made and are not linked.
//!
//! Each block that is linked takes the turn in the order of writing for which room was kept, with its own rank, where memory has it changed.
//! The blocks are linked one by one, and those that were linked and not looked at are listed.
//!
//! Proved: just what hangs from the slot by blocks that were made is linked, and each such block leads to linked ones alone; facts and
//! flags of all other blocks stay. Want of memory may be answered by `reserve` alone.
//!
//! Not proved: that blocks that were made are held. What hangs from one that is not held is not looked at, and is not linked.
#![tactic(auto)]

mod linking;
mod list;

pub use list::Worklist;

// Passed on, so that a crate above names this one alone.
pub use fo_buffers::Buffers;
