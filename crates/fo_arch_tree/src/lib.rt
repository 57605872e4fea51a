//! What is stored of a snapshot is its archive (docs/ARCHIVER.md).
//!
//! The archived tree is read by scores alone (`fo_vac_open`), and the tree of a root block by the image of a device (`fo_good`). Both are
//! functions, and the law says that they are equal: each name, each field of a record and each byte of each file.
//!
//! Proved: where an arena holds the forms of all that was stored of an image, the root block is stored, and its tree is readable (each
//! name leads to its pair, leaves are of their format, and no pointer is a score), then a root of the archive that is held gives an
//! archive of its epoch and time, whose tree is that of the root block. Trees of sound images are readable. `finish` of `fo_arch` says so
//! of the score that it answers.
#![tactic(auto)]

mod laws;

pub use laws::{sound_trees_are_readable, stored_is_the_snapshot};
