//! Files of the active tree are looked at, over any blocks of a device that tells nothing.
//!
//! `info`, `parent`, `find` and `next_name` tell of the file at a place, of the directory above it, of that with a name and of that with the
//! next name in a directory, as the calls on files do; `read` gives the bytes of a file.
//!
//! Proved: the calls only look, what they give is within the limits, and each refusal has its cause. What is told is that of one file, at
//! the place asked for, the one above it, or one directly below (`IsTold`), and fits a stat record; what is found has the name that was
//! asked for, and what comes next a name after the one given, so a listing ends. As many bytes are read as fit and the file has. Not said
//! yet: what memory has there, where the device tells; so blocks that tell are not asked.
#![tactic(auto)]

mod tells;

pub use tells::{file_error, find, info, next_name, parent, read};

// Passed on, so that a crate above names this one alone.
pub use fo_files_at as files_at;
pub use fo_files_at::leaf_for;
