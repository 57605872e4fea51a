//! The labels of a device's blocks: which are not free, and which of them a walk has reached.
//!
//! Proved: over any device the table's read ends, writes nothing and calls the device at most once for each block of the table, and says
//! that a read failed only where the device's count of faults rose. It knows no more blocks than there are data blocks. Over a quiet device
//! that tells, what it answers has just the data blocks that are not free, each with its label, and all else in the table is zero (S4); a
//! refusal names a block at which that is broken. A block is found by its address exactly where it is not free; a mark changes nothing
//! else, and is answered once; `used` counts the marked ones, and `leaked` those others that may not be given out.
#![tactic(auto)]

mod error;
mod labels;
mod reads;

pub use error::TreeError;
pub use labels::{Known, Labels};
pub use reads::{Reads, read};
