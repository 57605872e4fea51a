//! A whole way to a block of a source in a tree is made current, over any blocks.
//!
//! The *way* to a block goes from the top down. It is made current block by block: each is itself current, or comes anew, and the slot
//! above is led to it. A new top is put nowhere yet; whoever has the source puts it into its entry.
//!
//! Proved, over any blocks and any device: the block at the end is current, pinned, whole and at its place, and has what was there, what
//! was kept under a score, or zeros. Only blocks that were given out and current ones of the way differ, in memory and in every image; only
//! blocks of the way are to be closed, and all are that leave the tree. A slot is put once, and what is current stays. No image shows more
//! in a leaf of records, nor would it with an entry of the source, where one led to no more than memory's does. The source with the new top
//! stands over the blocks. What is clear behind its end stays so, where the way is the last one or the device tells. No blocks are left
//! dirty that weren't but those of the way and those of their labels; where a neighbour's way is counted, its blocks count once. Not said:
//! what the source reads then.
#![tactic(auto)]

mod top;
mod way;

pub use way::{Current, own_near, own_way};

// Passed on, so that a crate above names this one alone.
pub use fo_tree_own::{is_current, kind_at};
