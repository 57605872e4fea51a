//! A source of data in a tree of blocks gets another length, over any blocks.
//!
//! A shorter one is shortened by a put of its entry, and trimmed then: what stands behind its end is cut, once all was settled. A longer
//! one is trimmed first, zeros are put behind its end in its last leaf, and it gets the levels that it needs; what is between its ends is
//! a hole, for which no block is taken. Its entry is put in the end.
//!
//! Proved, over any blocks and any device: a length past the limit is refused, and nothing else is as too big; else want of memory and
//! faults alone refuse, and then the source has the length that it had, or is shorter and was not trimmed. The source stands over its
//! blocks, its entry stands where it stood, and each step is the one that `Blocks` knows (`ShortensBy`, `LengthensBy`). Where the device
//! tells, the source's bytes are those of the plain world's change of length, and an image of a source that was trimmed has the leaves
//! that memory has. No image shows more in a leaf of records. It asks, where the device tells, that no slot waits to be cleared, and that
//! no level that goes is under a score.
#![tactic(auto)]

mod error;
mod grow;
mod long;
mod raise;
mod set;
mod short;
mod trim;

pub use error::LengthError;
pub use set::set_len;
