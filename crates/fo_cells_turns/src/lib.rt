//! The calls of a device, with all that holds of a block cache at every moment; and how it begins.
//!
//! Proved, over any device and whatever it answers: a write of a data block, of block 1, or of a block of labels, and a sync add no image and
//! keep the whole (`HoldsMade` of `fo_cells_steps`). And the whole holds where a cache opens over a device that is settled, with nothing made
//! and nothing that waits to be closed, if each block of the tree has one parent there (`opening_holds`). What is held stands where it stood
//! (`places_stay`).
#![tactic(auto)]

mod device;
mod laws;

pub use device::{settle_made, write_made};
pub use laws::{opening_holds, places_stay};
