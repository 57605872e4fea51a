//! The trees of the active epoch and of kept snapshots, and the super blocks that name them.
//!
//! `fo_cells` says of the blocks that stand somewhere what a crash may leave. Here their tops are told apart: `active` are block 1 and what
//! was made, `roots` those of kept snapshots. `HasTrees`: what a kept tree may reach isn't closed at or before its epoch, in memory and in
//! every version of its label block; what the active trees may reach is live, and what they name on the device is live in every version.
//! `HasRoots`: each super block that may be there names roots that are live in every version, of its own high epoch. `HasEpochs` has both,
//! with the invariant of `fo_cells`.
//!
//! Proved: every step of a cache keeps `HasEpochs`; a snapshot begins an epoch, with a new root of the next epoch that was given out,
//! written, settled and named by a super block that counts; the low epoch rises, and roots of before it are kept no more. Not here:
//! which removals wait (`fo_cells_queue`).
#![tactic(auto)]

mod laws;

pub use laws::{device_keeps_epochs, memory_keeps_epochs, supers_keep_epochs};
