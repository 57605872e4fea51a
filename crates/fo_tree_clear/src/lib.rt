//! Bytes are put into a leaf of a source in a tree, and what stands behind its end is cleared, over any blocks.
//!
//! Proved, over any blocks and any device: a piece that is put into a leaf below the end stands in the place of the bytes that were there,
//! in a leaf of the current epoch; the last leaf of a source of data that holds no records has zeros behind the end of data, where there
//! is one; what changes is what `Changes` says, what was prepared stays so, and the source stands over the blocks. Where the device
//! tells, all other bytes and leaves are those that were there. What is clear behind the end stays so, where the device tells or the leaf
//! is the last one. No image shows more in a leaf of records; an entry that led to no more of these than memory's does so with the new top.
//! Not here: a piece over several leaves, a source that grows or is shortened.
#![tactic(auto)]

mod here;
mod put;
mod tail;

pub use put::put_leaf;
pub use tail::clear_tail;

// Passed on, so that a crate above names this one alone.
pub use fo_tree_leaf::{Current, Kept};
