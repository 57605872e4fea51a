//! A record is taken out of its leaf, or another of the same file is put in its place.
//!
//! The bytes of the leaf are at hand. A record that changes goes to the end of its leaf; where it has no room there nothing is changed.
//!
//! Proved, over any blocks: nothing else is refused. Memory has the records of the leaf without the first of the name, and then the new
//! one; all else stays. In every image each record of the directory has both entries of its pair, and no name, number or pair stands
//! at two places, if it was so before, where a new name stands nowhere else: of a list of leaves, and of all that images show of records.
#![tactic(auto)]

mod change;
mod take;

pub use change::change_record;
pub use take::take_record;

// Passed on, so that a crate above names this one alone.
pub use fo_dir_put::clear_entry;
