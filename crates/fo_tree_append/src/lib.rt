//! A piece is put into a source in a tree, within its end or past it, over any blocks.
//!
//! Proved, over any blocks and any device: where a piece ends past the source's end and nothing stands behind that, the source ends with
//! the piece, with zeros between the end that there was and it, and the levels that it needs. What changes is what `Changes` says of one
//! call, what was prepared stays so, the source with its new top stands over the blocks, and no more blocks are taken than `Bytes` allows.
//! Where the device tells, its bytes are those of the plain world's write; there, and over any device where the piece stays within a leaf,
//! nothing stands behind its new end. An empty piece changes nothing. No image shows more in a leaf of records.
//!
//! The end that there was is zeroed first, while its leaf is the last one: so nothing is put below the last leaf where a piece stays within
//! it. What each step takes is counted by the blocks that aren't current on its way; so zeros, levels and piece fit what the trait allows.
#![tactic(auto)]

mod all;
mod grow;
mod past;
mod piece;
mod raise;

pub use past::put_past;
pub use piece::put_piece;

// Passed on, so that a crate above names this one alone.
pub use fo_tree_clear as tree_clear;
pub use fo_tree_lift as tree_lift;
pub use fo_tree_lift::tree_grow;
pub use fo_tree_write as tree_write;
