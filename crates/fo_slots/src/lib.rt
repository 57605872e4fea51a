//! The slots of a block, read from its bytes and put into them, and whether the bytes are of the format of their kind.
//!
//! A block of each kind has its slots at fixed places: pointers, entries, or the two entries of a root block and the root block
//! before. The content that bytes mean has the slots that they spell, and these bytes beside them (`read` of specs/Read.antt).
//!
//! Proved: a slot is read exactly where its bytes spell one, and then it is the one that they mean; a slot that is put is read
//! again, and no other changes; other bytes that are put change no slot; and a block is told to be of its format exactly where it is
//! (`IsFormed` of fo_ports). Nothing takes memory.
//!
//! Not proved: that the places and formats are those that docs/FORMATS.md names (`test_blocks` reads bytes that were worked out by
//! hand). Addresses are not looked at: whether one is that of a data block is for the caller to ask.
#![tactic(auto)]

mod bytes;
mod formed;
mod leaf;
mod records;
mod root;
mod slots;

pub use bytes::put_bytes_into;
pub use formed::is_formed;
pub use slots::{
    has_slots, put_slot_into, read_is_read, read_slot, slot_count, slot_of, spelled_is_meant,
};

// Passed on, so that a crate above names this one alone.
pub use fo_image::Kind;
pub use fo_ports::{BlockError, Disk, Failed, Slot};
