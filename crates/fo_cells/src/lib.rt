//! What a block cache knows of each block at one moment, which images a crash may leave then, and why each step keeps what has to hold.
//!
//! `Known` is read off what a cache keeps beside its device (buffers, flags, labels, waits) and off the versions of the device; no ghost
//! value is stored. A block is *newborn* from when it is given out until it was settled whole: no image of the device leads to it, so what
//! memory has stands for it. `MaySlot` is what may stand in a slot: a version, memory, or the cleared slot. `Stands` are the paths of such
//! slots from the tops. `Remains` are the images. `IsSafe` is the invariant: a block stands at one place, ranks and epochs fall, labels
//! fit, what is named on the device was settled before, older blocks are set, the tree of memory is live, block 1 is memory's or the doubt,
//! and all that stands is of the device.
//!
//! Proved of each step (a write of a block, whole or with older slots, landed or not; a write of a block of labels; a sync; the end of a
//! wait; a slot or bytes put; a slot that begins to wait, and is cleared; a block given out, indexed, closed; a super block tried, counted,
//! overruled): by which cell the images grow, and that the invariant is kept. Every image of the device is, as far as paths lead, one of
//! these, and there is one. `write_block` and `settle` make such steps over any device, and keep what flags say. Not here: what leaves the tree
//! (`fo_cells_out`); how much room is left (`fo_cells_held`); what closed labels say of snapshots (`fo_cells_epochs`); which block is next.
#![tactic(auto)]

mod buffered;
mod buffers;
mod device;
mod flush;
mod laws;

pub use buffered::Buffered;
pub use buffers::{Buffer, Buffers};
pub use device::{settle, write_block};
pub use laws::{
    blocks_are_safe, device_steps_are_safe, images_are_known, puts_are_safe, supers_are_safe,
    waits_are_safe,
};
