//! Blocks: what a block cache promises to all that stands on it.
#![tactic(auto)]

mod blocks;
mod error;
mod sources;

pub use blocks::Blocks;
pub use error::BlockError;
pub use fo_crash::{Place, Slot};
pub use sources::Bytes;

// Passed on, so that a crate above names this one alone.
pub use fo_base::BLOCK;
pub use fo_disk::{Disk, Failed};
pub use fo_meta::{Kind, Pointer, Score, is_zero, read_pointer, score_at};
