//! Tests of the length of a source (`fo_tree_set`), as the data of a file gets it (`fo_files_cut`), over blocks that tell nothing.
//!
//! A file is its list of bytes: what is read at each place is the byte that was put there last, and 0 where none was or it was cut since.
//! Not tested here: a source of an older epoch, one under scores, and a settling that is refused.
#![tactic(auto)]

#[cfg(test)]
mod lengths;
#[cfg(test)]
mod steps;
