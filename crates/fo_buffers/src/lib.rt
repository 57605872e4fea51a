//! Buffers of blocks, by their addresses, with room that is reserved beforehand, and clean blocks that may be given up.
//!
//! Seen as a finite map from addresses to what is held of them, a list of clean blocks by their last use, and how much room there is.
//! A block is read from a device here alone, into reserved room.
//!
//! Proved: what each call does to all three; a block that is dirty or pinned is never given up; a load fails only where the device
//! fails, and holds one of the device's versions. Want of memory may be answered by `new`, `reserve` and `look` alone; a block that is
//! released is forgotten where there is none.
#![tactic(auto)]

mod block;
mod buffers;
mod held;

pub use block::{Block, Buffer};
pub use buffers::Buffers;
pub use held::Unread;

// Passed on, so that a crate above names this one alone.
pub use fo_slots::{BlockError, has_slots, is_formed, read_is_read, slot_count, slot_of};
