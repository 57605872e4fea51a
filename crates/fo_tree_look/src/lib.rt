//! Sources of bytes in trees of pointer blocks, over any blocks: they are read, and the ways to their leaves are prepared.
//!
//! The *way* to a leaf goes from the top down, by slots that are the digits of the leaf's number to base 409. It is *prepared* once its
//! blocks are pinned, their labels were looked at, and what stands under scores was fetched and is *kept*.
//!
//! Proved, over any blocks and any device: `len`, `entry`, `read`, `leaf` and `prepare` keep the clauses that `Bytes` asks of them, and
//! `holds` and `stays` its laws. Nothing here changes a block.
#![tactic(auto)]

mod calls;
mod keep;
mod laws;
mod pins;
mod place;
mod ways;

pub use keep::kept_bytes;
pub use laws::{holds, stays};
pub use ways::{Kept, Ways};

// Passed on, so that a crate above names this one alone.
pub use fo_tree_read::{Blocks, Tree, score_in};
