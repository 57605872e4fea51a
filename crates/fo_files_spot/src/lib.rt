//! Where a new file of a directory goes, over any blocks of a device that tells nothing.
//!
//! `spot_for` looks for the least free pair of a directory's entries, and for the first leaf of its records with room for a record of a
//! length; it also says whether a name stands alone there (`stands_alone`): whether each other leaf of the records is in every image what memory has.
//! Where it doesn't, `settle_unless` settles: else a crash could leave the name in that leaf and, as it was before, in another. `is_full` says whether
//! the directory has as many names as one may have, 2^20.
//!
//! Proved: the calls only look, within the pins that reading each leaf takes, and each refusal has its cause. The pair and the leaf stand within
//! the directory's sources, or right behind their last leaf; a directory is full only where its leaves have room for so many names. Not said: that
//! the pair is free, that the leaf has room, and that a directory with so many names is full, since nothing is known of what such a device has;
//! whoever takes the spot tests both again.
#![tactic(auto)]

mod settle;
mod spot;

pub use settle::settle_unless;
pub use spot::{MOST_NAMES, Spot, is_full, spot_for, stands_alone};
