//! Files of all views are looked at, over blocks of a device that tells nothing and has no snapshot and no archive.
//!
//! `info`, `parent`, `find`, `next_name` and `read` look at the active tree from the blocks' root block (`fo_files_look`). No image has a
//! snapshot or an archive yet. So of the other views there is just the root of the dated directories, one of snapshots and one of archives,
//! and each is an empty directory.
//!
//! Proved: of the other views each call answers what the file step says of every world that has no snapshot and no archive, but that memory
//! may be wanting for what is told; so do the refusals of a write, a creation, a removal and a change there. Of the active tree what
//! `fo_files_look` says. Each call only looks; its refusals have their causes. Not said: what memory has of the active tree.
#![tactic(auto)]

mod aside;
mod looks;

pub use aside::{no_change, no_create, no_remove, no_write};
pub use looks::{find, info, next_name, parent, read};
