//! The way to a file of the active tree is made ready for a request, and room reserved for it, over any blocks of a device that tells nothing.
//!
//! `touch` gives a record its new time, version and user, `is_of_root` tests whether it is one of a root directory, and `spare_for` looks for the
//! leaf to which a record goes that gets longer.
//! `reserve_room` reserves blocks, pins and removals, and tells of files what refuses it. `own_along` plans and owns the way to a file below the
//! root directory, and says where its pair of entries stands, that of its directory, and that of the directory above that one; `own_dir_along`
//! does the same for a directory, which may be the root. Both take at most five blocks a directory, and where they are refused all was only
//! looked at.
//!
//! Proved: full comes only where fewer blocks are usable than were asked, with all settled. Each pair stands in a block that is owned, the k-th of
//! the way, in the slot that the file's record says; the blocks hang one below the other from the root block; and the directories on the way have
//! numbers that differ. Not said: what holds of images; that a record's pair is the file's own, which is for who opens its sources.
#![tactic(auto)]

mod along;
mod record;
mod room;

pub use along::{DirStand, Stand, own_along, own_dir_along};
pub use record::{is_of_root, spare_for, touch};
pub use room::reserve_room;

// Passed on, so that a crate above names this one alone.
pub use fo_files_look as files_look;
pub use fo_files_plan::files_at;
