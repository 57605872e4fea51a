//! A file is taken out of its directory, over any blocks of a device that tells nothing.
//!
//! `remove_file` looks first: refusals by what the tree has, and by limits, come there, and the leaf for the directory's own record where that
//! outgrows its leaf is looked for. Then it reserves what it needs. The way to the file is planned and owned, and the directory's own record made
//! ready, with the new time, user and version; then the file's record goes, with the entries of its pair, and last the own record is put. Nothing is
//! refused once the record went.
//!
//! Proved: it is granted only in the active tree, where the system isn't halted, of a file that was found; then the record that was found is gone with
//! its pair, and the directory's own record has the new time, user and version (`Removes`). One that is refused leaves each record as it was, in its
//! bytes, though the own record may have moved to another leaf. Each refusal has its cause, and full comes only where, with all settled, fewer blocks
//! are usable than a removal may need (`give` of `fo_world`); at most that many are taken.
//!
//! Not said: that a directory which goes has no names, or that a file which is told to be gone is none of the tree's, since nothing is known of what
//! such a device has; and what holds of images. A removal follows no entry where a directory's entries have something behind their end.
#![tactic(auto)]

mod look;
mod remove;
mod take;

pub use remove::remove_file;

// Passed on, so that a crate above names this one alone.
pub use fo_files_along as files_along;
pub use fo_files_along::files_look;
