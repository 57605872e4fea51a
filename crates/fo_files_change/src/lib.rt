//! A record of a directory goes, over any blocks of a device that tells nothing.
//!
//! The directory's own two entries stand in a block that may be changed (`DirAt`). A leaf that its records have is made ready, with its source
//! linked (`records_leaf`); then the first record of a name goes there with the entries of its own pair (`take_file`).
//!
//! Proved: each is refused by faults, damage and want of memory alone, and then no record changed: all was looked at, the leaf made ready, or
//! settled. Where it is granted the leaf has its records without the first of the name; the entries of the pair of
//! the one that went are cleared, or wait for it (`TakesOut`). What stays is said in two steps, up to the ready leaf (`Alters`) and from there
//! (`Rewrites`). At most 10 blocks, 20 pins, and a removal for each entry are used. Not said: what holds of images.
#![tactic(auto)]

mod leaf;
mod take;

pub use leaf::records_leaf;
pub use take::take_file;

// Passed on, so that a crate above names this one alone.
pub use fo_files_leaf as files_leaf;
