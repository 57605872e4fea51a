//! A new file comes into a directory, over any blocks of a device that tells nothing.
//!
//! `new_file` gives a new file the pair and the leaf of records that a look found for it. Both leaves are made ready, with their sources linked,
//! after a leaf behind the end of the entries was taken in and settled, and what stands behind the records' end cut, where these have to grow;
//! where the leaves were not in place when all was last settled, all is settled; and then the pair is put, the leaf of records made to wait for it,
//! and the record put behind the others.
//!
//! Proved: the record that was added is the one given, with its pair and the next generation of that; memory has it behind the others of its
//! leaf, and both entries of the pair, for which the leaf waits; each other pair stays, and no slot begins to wait to be cleared. Refusals are by
//! faults, damage and want of memory, and then no leaf that was there was changed, but for slots that waited to be cleared. The block with the
//! directory's entries stays what it was; at most 24 blocks, 81 pins, and 1637 removals and waits are used; of other blocks that were there only
//! current ones above the directory's leaves, and the two leaves, are put into (`Alters`). Not said: what holds of images.
#![tactic(auto)]

mod new;
mod pair;

pub use new::new_file;
pub use pair::{Leaves, ready_both};

// Passed on, so that a crate above names this one alone.
pub use fo_files_leaf as files_leaf;
