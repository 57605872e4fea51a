//! A name is removed: its record is taken out of its leaf, and then the entries of its pair are cleared.
//!
//! The first entry is cleared once the leaf is settled as it is then, so no image has a record whose entry is gone. Of a directory the
//! second entry is cleared after it: once the leaf is settled where the first waits for that, else at once.
//!
//! Proved, over any blocks: nothing is refused. Memory has the records of the leaf without the first of the name; each entry is cleared, or
//! waits for it; all else stays. In every image each record has both entries of its pair, and no name, number or pair stands at two places,
//! if it was so before: of a list of leaves, and of all that images show of records. It is said what is to be closed, and that the leaves
//! may be changed further.
#![tactic(auto)]

mod entry;
mod remove;

pub use entry::clear_second;
pub use remove::remove_record;
