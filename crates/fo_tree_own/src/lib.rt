//! The way to a leaf of a source in a tree is made current, step by step, over any blocks.
//!
//! A block is *current* once it is of the active epoch, and may be changed. A way is made current from the top down: the block below a
//! slot of a current block is itself current, or is older and copied, or is none and made new; and the slot is led to what came.
//!
//! Proved, over any blocks and any device, for one step: the block that came is current, pinned, whole and at its place, and so is still
//! the block above; it has what was there, what was kept under a score, or zeros. No other block changes, in memory and in every image;
//! nothing is lost that hung from block 1, and what was copied is to be closed where it leaves. No image shows more in a leaf of records,
//! nor would it with an entry that led to no more than memory's does. Not said: what a whole way changes.
#![tactic(auto)]

mod below;
mod block;
mod fill;
mod kept;

pub use below::{is_current, kind_at, new_below, own_below};
pub use block::own_block;
pub use kept::{fill_kept, kept_below};
