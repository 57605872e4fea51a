//! The data of a file gets another length, over any blocks of a device that tells nothing.
//!
//! `cut_data` makes the data of a file shorter or longer, whose pair of entries stands in a block that was owned. The source is opened from
//! the entry that memory has there, the way to the last leaf that stays is prepared, and its length is set (`fo_tree_set`).
//!
//! Proved: a length past 2^40 bytes is refused as too big, and nothing else is; else want of memory, faults and damage alone refuse, and the
//! entry has then the length that it had. Where it is granted the entry has the length that was asked for. It keeps its use, generation, kind
//! and tag. Each step is the one that `Blocks` knows (`CutsBy`). All else stays but blocks that were given out, current ones of the file's tag,
//! and slots that waited to be cleared; the block with the entry stays owned, and its other slots stay. Of that block damage is said exactly.
//! It takes at most 9 blocks and 3,273 removals. Where it is shorter and the settling is refused before what stands behind its end is cut, it is
//! granted all the same, and is trimmed before it grows. Not said: what bytes the file has, since the device doesn't tell; and what holds of
//! images.
#![tactic(auto)]

mod cut;
mod error;
mod open;

pub use cut::cut_data;
pub use error::CutError;

// Passed on, so that a crate above names this one alone.
pub use fo_files_write as files_write;
