//! A leaf of a source in a tree is made current, over any blocks.
//!
//! Proved, over any blocks and any device: of a leaf that ends within the source all that `Bytes` asks of an owned leaf (`Owned`), of what
//! changes, of what was prepared, and of how many blocks it takes and leaves dirty; the source stands over the blocks, and where the
//! device tells it has the bytes that it had. Not here: leaves past the end, for which a source grows.
#![tactic(auto)]

mod leaf;

pub use leaf::own_within;

// Passed on, so that a crate above names this one alone.
pub use fo_tree_down::{Current, is_current, own_near, own_way};
pub use fo_tree_look::{Kept, Tree, kept_bytes, score_in};
