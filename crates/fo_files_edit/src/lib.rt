//! A change of what is said of a file of the active tree (stat(5) of the Plan 9 manual), over any blocks of a device that tells nothing: what it looks
//! at, and the change itself where the file keeps its name.
//!
//! `found_at` looks: refusals by what the tree has, and by limits, come there, and it makes the record that the file is to have. `change_below`
//! reserves what a file below the root directory needs, owns the way, gives the file its length, where one is given, and puts the record;
//! `change_root` puts that of the root directory. A change that gives a new name besides, and so changes the directory's own record, is that of
//! `fo_files_rename`, over them.
//!
//! Proved: each refusal has its cause, in the order of the file step; the record is the one that was found, with all that is given; full comes only
//! where fewer blocks are usable than the change takes at most. Where a change is refused, the record is as it was, and the file's length. Not said:
//! that a file that is told to be gone is none of the tree's, that a name that is told to be taken is; what bytes the file has; what holds of images.
#![tactic(auto)]

mod asks;
mod change;
mod edit;
mod fields;
mod found;
mod root;

pub use asks::is_renamed;
pub use change::{change_below, change_root};
pub use found::{Found, found_at};
pub use root::root_record;

// Passed on, so that a crate above names this one alone.
pub use fo_files_into as files_into;
pub use fo_files_into::{files_along, files_at, files_look, files_write};
