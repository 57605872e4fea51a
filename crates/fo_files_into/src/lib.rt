//! A file's data changes, and its record, where the way to the file was owned; over any blocks of a device that tells nothing.
//!
//! `write_into` puts a piece into the data, and `change_into` gives the data another length, where one is given. Both make the leaf with the file's
//! record ready first, and read it; then the data changes, and last the record. So all that may be refused comes before a client sees anything.
//!
//! Proved: where it is granted, the leaf that has the record was made ready, or another to which that record moved as it is; then the data changed
//! alone, and then the record in this leaf. Where it is refused, the record is as it was, and the file has the length that it had; of a write no
//! leaf of data was put into. Refusals have their cause. Not said: what bytes the file has, since the device doesn't tell; what holds of images.
#![tactic(auto)]

mod change;
mod write;

pub use change::change_into;
pub use write::write_into;

// Passed on, so that a crate above names this one alone.
pub use fo_files_along as files_along;
pub use fo_files_along::{files_at, files_look};
pub use fo_files_cut::files_write;
pub use fo_files_ready as files_ready;
pub use fo_files_ready::{files_change, files_leaf};
