//! Directories of an archive: which file a name or a number stands for, and which comes next (docs/FORMATS.md, "Archived forms").
//!
//! A *folder* is a source of entries, and a source of the records in its leaves. A record names a pair of entries. Its names are as the
//! tree of an archive has them (`fo_vac_open`), however the archive was made: of files with one number the first by name counts.
//!
//! Proved over any device: nothing changes, a fault comes only where the device's count rose, and what is told of a record is within the
//! limits. Proved over a device that tells what it holds: `record` answers the file that the tree has under a name, under a number, or
//! next after a name; `file` and `folder` lead to its bytes and its names; what is called damaged is lost, bad, or no leaf of records.
#![tactic(auto)]

mod choice;
mod folder;
mod leaf;

pub use choice::Wanted;
pub use folder::Folder;
