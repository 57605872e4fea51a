//! The records of a directory, pairs of entries, and file numbers, as the check of a tree judges them: lists, and no device.
//!
//! Proved: names, pairs and numbers are answered to differ exactly where they do; the record of a slot pair is marked exactly where the
//! two entries are its own, and those of a row of leaves as missed; a record whose pair was neither found nor missed, and a number of no
//! file, are answered exactly where there are any, at a leaf that has one; what a pair of entries names is what its flags say.
#![tactic(auto)]

mod names;
mod pairs;

pub use names::{
    Named, Number, add_named, add_numbers, find_pair, miss_pairs, no_file, same_name, same_number,
    same_pair, without_pair,
};
pub use pairs::{is_alone, is_both, is_folder, is_source, leaf_unless, records_of};
