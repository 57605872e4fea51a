//! Files of an archive that is open: looks along trails of file numbers.
//!
//! `Opened` is an archive that was found by its score. Proved over any device: nothing changes, a fault comes only where the device's count
//! rose, and what is told is within the limits. Proved over a device that tells what it holds: each look answers what the file step says of
//! the world with that archive, however much of the archive is broken; else it is not read, and what is called damaged is broken.
#![tactic(auto)]

mod looks;
mod opened;
mod reach;

pub use looks::{find_at, info_at, kind_at, next_at, parent_at, read_at};
pub use opened::Opened;
