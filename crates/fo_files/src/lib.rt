//! The files of the system: `FileOps` over blocks of a device that tells nothing.
//!
//! `Files` look by `fo_files_views`; they write, create, remove and change by the requests of `fo_files_request`, `fo_files_create`,
//! `fo_files_take` and `fo_files_edit`, in the active tree alone. Images have no snapshot and no archive yet: the dated directories are empty.
//!
//! Proved: the contract of `FileOps`, as far as it speaks of files that are not honest. Each call answers within the limits of names and
//! users; a fault comes only where its device's count rose, and full only where all is settled and fewer blocks are usable than the call
//! may take; a call that changes takes no more; looks and settlings leave the room; after `sync` all is settled. `honest` is that the blocks
//! tell, which the constructor excludes. Not said: what is in the files.
#![tactic(auto)]

mod files;

pub use files::Files;

// Passed on, so that a crate above names this one alone.
pub use fo_files_take::{files_along, files_look};
