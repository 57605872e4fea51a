//! A directory's own record changes, over any blocks of a device that tells nothing: its time, version and user.
//!
//! The record of the root directory stands in its root block, that of another directory in a leaf of records of the directory above it.
//! `ready_own` does all that may be refused, and makes the bytes that the block will have; `put_own` puts them, and refuses nothing. In
//! between a request does the rest of its work. `own_at` says where the record of a directory stands; `copied` copies a record.
//!
//! Proved: making ready is refused by faults, damage and want of memory alone, and leaves each record as it was, in its bytes, though one may have
//! moved to another leaf. The bytes made ready are those that the block had with the new record in the place of the old one; a put changes that
//! block alone, so the record that stood there is the new one if the block stayed as it was. At most 11 blocks are taken, 60 pins, and 1,637
//! removals and waits; none for a root block. Not said: what holds of images.
#![tactic(auto)]

mod at;
mod leaf;
mod put;
mod ready;
mod root;

pub use at::{Below, OwnAt, ReadyOwn, own_at};
pub use put::put_own;
pub use ready::ready_own;
pub use root::copied;

// Passed on, so that a crate above names this one alone.
pub use fo_files_ready as files_ready;
pub use fo_files_ready::{files_change, files_leaf};
