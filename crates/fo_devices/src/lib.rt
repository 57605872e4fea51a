//! Blocks on real devices: a cache over its device, with an arena on another one beside it.
//!
//! `Devices` is `Blocks`, so all that stands on blocks runs on two devices of any kind, as files. Over any device it is said as over one
//! that tells nothing: no image is left, nothing stands at a place, nothing is to be closed, and nothing is held. So what is said of
//! crash images, of places and of what hangs from block 1 says nothing here, whatever the device tells.
//!
//! Proved: each clause and each law of `Blocks`, over any devices. What memory has of each block, its label and its marks, what waits, what
//! is queued, file numbers, room, pins and how many blocks are usable are those of the cache; a fault comes only where that device's count
//! rose, and other refusals have the causes of the trait. No call changes what the arena holds, or how large a device is.
//!
//! A block that is fetched hashes to its score, over any device: the arena's index has it under the score and the kind, and it is
//! grown to its full length as a block of that kind. `Damaged(1)` comes only where the index has no such block, or has a place for it. Over
//! a device that tells what it holds, just what is held is fetched, and what is called damaged is not held or doesn't hash to its score.
//!
//! Not proved here: what is said of crash images, places and moments.
#![tactic(auto)]

mod calls;
mod devices;
mod fetch;

pub use devices::Devices;
pub use fetch::fetch_block;
