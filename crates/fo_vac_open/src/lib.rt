//! Archives as an arena holds them: what the tree of an archive is, and the look at its root and its top block.
//!
//! An archive is found by the score of its root, which names a top block, which has the root directory's record and its two sources.
//! In its blocks each pointer is a score; the score of the empty block is nil (docs/FORMATS.md, "Archived forms"). Its tree is read
//! along paths of slots, as that of a root block of the main device is (`fo_good`), by scores alone.
//!
//! Proved over any device: the root and the top block that are read are blocks that hash to their scores and spell these values;
//! `Absent` comes exactly where no root is held; a fault only where the device's count rose; nothing changes. Proved over a device
//! that tells what it holds: an archive that is held is found, or the answer is damage, a fault or want of memory; `BadVac` comes
//! only where the root that is held is not of its format, or its top block is not held or not of its format.
//!
//! Of the definitions: the functions that read an arena give what is held, and no archive leads to a block of a main device. That
//! the tree of an archive is that of the snapshot is to be proved of the archiver.
#![tactic(auto)]

mod laws;
mod open;
mod types;

pub use laws::{archives_stay_in_the_arena, what_is_held_is_read, what_is_stored_is_read};
pub use open::open_archive;
pub use types::{Archived, VacError};
