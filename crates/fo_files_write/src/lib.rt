//! The data of a file is written, over any blocks of a device that tells nothing.
//!
//! `write_data` puts a piece into the data of a file whose pair of entries stands in a block that was owned. The source is opened from the
//! entry that memory has there. Where it has to grow it is trimmed first: what stands behind its end is cleared, in blocks that were made
//! current and linked, with a settling before the slots are cleared. Then the ways to the piece are prepared, it is put, and the source is
//! linked.
//!
//! Proved: it is refused by want of memory, faults and damage alone, and the entry has then the length that it had, and each leaf of data what it
//! had; where it is granted, the entry has its generation and the length that is answered, the old one or that of the piece's end, and the piece
//! was put into the source whose entry stood there, prepared for it (`PutsPiece`). All else stays but blocks that were given out, current ones of
//! the file's tag, and slots that waited to be cleared; the block with the entry stays owned, and its other slots stay. It takes at most so many
//! blocks as `most_of` says, and four to trim. Not said: what bytes the file has, since the device doesn't tell; and what holds of images.
#![tactic(auto)]

mod data;
mod grow;
mod open;
mod put;

pub use data::write_data;

// Passed on, so that a crate above names this one alone.
pub use fo_tree_shorten as tree_shorten;
