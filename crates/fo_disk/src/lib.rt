//! Disks of blocks of 8192 bytes that tell which versions of each block a crash may leave.
//!
//! A block has a settled version and those of the writes since; a crash leaves any one of them. An image is a choice of one for
//! each block, a moment is what the disk held between two calls, and a block is unsure where its last write failed. `MemDisk` keeps
//! all versions and all moments and fails at listed calls, `SureDisk` settles at once and never fails, and `FileDisk` is a file of
//! the system.
//!
//! Proved of every disk: what each call does to the versions, the moments and the sizes, and that a call fails only where the
//! count of faults rose. Of `MemDisk`: it fails at the listed calls, a write that is listed lands all the same, and one that finds
//! no memory changes nothing and is counted.
//!
//! Not proved: what a file holds, since no contract can say what the system gives. `FileDisk` tells nothing of its blocks, and
//! that a sync reaches the disk is the system's word.
#![tactic(auto)]

mod disk;
mod file;
mod memory;
mod memory_calls;
mod sure;
mod sure_calls;

pub use disk::{Disk, DiskFault, Failed};
pub use file::FileDisk;
pub use fo_base::BLOCK;
pub use memory::MemDisk;
pub use sure::SureDisk;
