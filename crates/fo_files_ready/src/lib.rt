//! A record of a directory is made ready to change, over any blocks of a device that tells nothing.
//!
//! `ready_record` makes the leaf that has the record ready. Where a new record doesn't fit into its place there, the record first moves as it is
//! to another leaf, which a look has found: that is made ready too, or added behind the last, for which the source of records is trimmed. So
//! all that may want memory, read or settle is done before the record changes: then `change_in` and `change_record` have room.
//!
//! Proved: the leaf that is answered may be changed, has a record of the name, and has room for the new one in its place. It is refused by
//! faults, damage and want of memory alone, and then no leaf of records that was there has other bytes. What stays is said in two steps, up to
//! the ready leaves (`Alters`) and over the move (`Rewrites`). At most 11 blocks are taken, 60 pins, and 1,637 removals and waits. Not said:
//! what holds of images.
#![tactic(auto)]

mod leaf;
mod own;
mod place;
mod ready;

pub use ready::ready_record;

// Passed on, so that a crate above names this one alone.
pub use fo_files_change as files_change;
pub use fo_files_change::files_leaf;
