//! Blocks in memory alone, which keep every clause and law of `Blocks`: for tests, and for clients that stand on it.
//!
//! Every image that a crash may leave is what memory has. So all is settled, sure and sealed at once, and no slot waits to be cleared.
//! Moments pass where all is settled, as many as were asked for: of each what a crash could have left is kept. Blocks that a call takes out of the tree, and root blocks that are retired, are marked, and never closed nor given out
//! again.
//!
//! Its main words (specs/): `state_of`, what the device is as the calls see it; `Sound`, what stays true of its blocks: each slot that
//! leads on leads to the block of its place and of its source, and a source hangs from one slot (`Home`), so that each block is found
//! at one spot; `Covered`, what hangs from a slot that was taken out, and root blocks that were retired, where block 1 reaches them no
//! more.
//!
//! What isn't proved: that a device with a cache behaves so, which is a matter of its own crate.
#![tactic(auto)]

mod block;
mod calls;
mod device;
mod held;
mod home;
mod links;
mod moment;
mod moves;
mod plain;
mod spell;
mod wait;

pub use plain::PlainBlocks;
