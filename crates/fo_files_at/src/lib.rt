//! The file at a place of the active tree is found, over any blocks of a device that tells nothing.
//!
//! A place is a trail of file numbers from the root. `at_place` goes down from the root by the records of directories, and gives the file
//! with the directories on the way. `entries_of`, `records_of` and `data_of` are the sources of a file that was found.
//!
//! Proved: the calls only look, and each refusal has its cause. A way has as many steps as its trail has numbers: each step is a directory
//! whose file is within its limits and can be spelled, and a leaf of its records; the file below has the next number, and ranks fall by 32
//! (`IsWay`). A source is that of the file's entry, which is in use and has the file's tag; the leaf that has the entry is damaged where it
//! is another. Not said yet: what memory has there, where the device tells; so blocks that tell are not asked.
#![tactic(auto)]

mod at;
mod file;
mod laws;
mod root;

pub use at::{Step, Way, at_place, one_down};
pub use file::{
    DATA_BELOW, DATA_LIMIT, ENTRIES_BELOW, ENTRIES_LIMIT, File, PAIRS, RECORDS_BELOW,
    RECORDS_LIMIT, ROOT_PLACE, ROOT_RANK, below, data_of, entries_of, records_of, tag_of,
};
pub use laws::way_ends;
pub use root::root_file;

// Passed on, so that a crate above names this one alone.
pub use fo_dir_list::{leaf_for, next};
pub use fo_dir_read::lookup;
pub use fo_tree as tree;
