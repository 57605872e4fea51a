//! Slots of a cache's blocks are put and cleared, over memory alone: no call of a device is made, and none wants memory.
//!
//! A put goes into the bytes of a pinned block, then into what is known of addresses; then what hangs from the slot by blocks that were made
//! comes into the tree of memory, where the block is there, and what leaves is queued to be closed. `fo_mind` does each of these steps, with
//! exact clauses on its fields. Here it is said what calls on blocks see of them, with the clauses of `Blocks`.
//!
//! Proved: memory changes by the slot alone; what is put is apart no more, and a block that is raised over it comes in its place; one block
//! is dirty that wasn't; the room used is the trait's cost; a slot that led to a block and leads to none queues one removal more, whatever
//! is known of its block. What is queued is to be closed at the epoch of the active tree, and the slot that was there leads to it, through
//! what memory has. What hangs from a slot that is put into the tree, by newborn blocks, is newborn no more. A slot that is cleared
//! ends the waits for its pair; or it waits itself to be cleared, where the leaf that it is to wait for isn't settled.
//!
//! Not proved here: what is said of crash images, places and moments, and that what is queued is all that left the tree: that is as far as
//! the blocks are held that tell it (`TakesOut` of `fo_taking`).
#![tactic(auto)]

mod puts;
mod removes;

pub use puts::put_slot;
pub use removes::remove_slot;
