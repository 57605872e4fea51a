//! Tests of reading trees of pointer blocks (`fo_tree_read`, `fo_tree_look`) over blocks in memory.
#![tactic(auto)]

#[cfg(test)]
mod pieces;
#[cfg(test)]
mod reading;
