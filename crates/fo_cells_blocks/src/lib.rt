//! Blocks that are given out, get their index, are queued alone, and are closed keep all that holds of a block cache at every moment.
//!
//! Proved, one law a step, over the invariant of `fo_cells_steps` (`HoldsMade`): a block that is given out, empty or as a copy of an older one,
//! is in all images and made; a made block gets its index; one that no super block came to name is queued alone; the next block of the first
//! removal is closed, of an earlier epoch or of the active one, once the block after which it comes is set, while it is clean or its last write failed; a removal
//! that has nothing left is gone. Not here: a snapshot's new root between that it is given out and that it counts (`fo_cells_snapshot`).
#![tactic(auto)]

mod laws;

pub use laws::{closed_blocks_keep_all, given_blocks_keep_all, made_blocks_keep_all};
