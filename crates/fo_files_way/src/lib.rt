//! Leaves of directories are made ready to be changed, over any blocks of a device that tells nothing.
//!
//! A *plan* is a list of leaves that are to be owned: of each its source, and in which slot of the root block, or of a leaf before it, the
//! source's entry stands. It is made by looks alone: it begins with the root block (`at_root`), and each leaf is put behind the others
//! once its source was opened from the entry that memory has, and prepared (`add`; `add_entries` of a directory on a way). Want of memory, faults and damage come there. Then `own` owns each leaf and links its source, from the root down, and refuses
//! nothing.
//!
//! Proved: where it is owned, each leaf is pinned, of the current epoch, and has what it had, but for the entries that were linked; it hangs from
//! the block above it, of whose entry the source has the leaf there (`AreLinked`); it takes at most so many blocks as the plan says, up to five a
//! leaf, and no removal or wait; and all but blocks that were given out, current ones above the leaves of the sources, and blocks of the plan,
//! stays as it is. Not said yet: that one call plans a whole way, and what holds of images.
#![tactic(auto)]

mod add;
mod laws;
mod own;
mod plan;
mod root;
mod way;

pub use add::Wanted;
pub use laws::{opened_entry, prepared_blocks};
pub use own::own_linked;
pub use plan::{Level, Plan};
pub use way::add_entries;

// Passed on, so that a crate above names this one alone.
pub use fo_files_at as files_at;
pub use fo_files_at::tree;
pub use fo_tree_shorten as tree_shorten;
