//! A cache with its device: blocks are written and settled in their turns.
//!
//! `Cache` is a `Mind` with the device that it speaks of. What the two have to do with one another is `Fits`: a block that counts as
//! settled has one version, a buffer that isn't dirty has the bytes of the last one, and a block of the label table that has no turn
//! has the labels of memory. Each version of block 1 is that of memory, or the one in doubt; and block 0 has one version, since nothing
//! writes it. Over a device that tells nothing it says nothing.
//!
//! Proved: what is got, given out, filled, put and cleared is said as `Blocks` says it, but for images; a block is written with the bytes or the
//! labels that memory has, and no other changes; a write that fails leaves it dirty; a sync that answers Ok settles each block whose
//! last write answered Ok, and one that fails changes nothing. Turns are taken until none is left, whatever memory has, and this
//! ends; memory keeps its bytes and pins, and blocks that had no turn are not written. Where all is settled, the device has one
//! version of each block of the tree and of the label table: memory's. A turn calls the device once at most, and all turns together twice
//! for each dirty block, and once for what was written before (`work`), each block being written once (`Makes`). A slot that is cleared adds
//! no more than three calls (`calls_left`).
//!
//! Another super block is written and settled before it counts; where that fails it is in doubt, until block 1 is settled again as
//! memory has it. The next file number is granted only below the limit of each super block that the device may have; where none says so
//! many, one that says more is written and settled first.
//!
//! A slot that waits for a leaf that is settled is cleared, whatever is pinned, and waits end where all is settled.
//!
//! Not here: `settle` (`fo_settling`), closing and `reserve` (`fo_reserving`), and `Blocks` itself (`fo_devices`). Not proved here: what is
//! said of crash images, places and moments.
#![tactic(auto)]

mod cache;
mod calls;
mod dues;
mod laws;
mod numbers;
mod requests;
mod settles;
mod slots;
mod supers;
mod turns;

pub use cache::Cache;
