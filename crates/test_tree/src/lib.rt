//! Tests of sources in trees of blocks (`fo_tree_look`, `fo_tree_grown`, `fo_tree_write`, `fo_tree_link`, `fo_tree_set`), over blocks in
//! memory that tell what they hold.
//!
//! A source is its list of bytes: what is read at each place is the byte that was put there last, and 0 where none was, or it was cut since.
//! Not tested here: a source of an older epoch.
#![tactic(auto)]

#[cfg(test)]
mod deep;
#[cfg(test)]
mod held;
#[cfg(test)]
mod linked;
#[cfg(test)]
mod shorter;
#[cfg(test)]
mod steps;
