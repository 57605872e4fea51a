//! The tree of blocks of a source is walked, over any blocks.
//!
//! A *tree* is where a source hangs: its top, depth, size, tag and rank. The *way* to a block goes from the top down, by slots that are
//! the digits of the block's number to base 409. A block was *got* once it is pinned and its label was looked at.
//!
//! Proved, over any blocks and any device: `read` gives the bytes that memory reads through the leaves, zeros where there is none, where
//! the device tells, or pins are left for the ways to them, or these were got; each block takes one pin at most. Blocks under scores are
//! fetched; as a device that tells nothing may hold another block the next time, nothing is said over it of what stands below a score.
//! `leaf`, `address_at` and `pointer_at` find a block, and each refusal has its cause. Not said: that the source is whole.
#![tactic(auto)]

mod below;
mod copy;
mod empty;
mod leaf;
mod read;
mod tree;

pub use below::score_in;
pub use empty::EMPTY;
pub use tree::Tree;

// Passed on, so that a crate above names this one alone.
pub use fo_looks::{BlockError, Blocks};
