//! What leaves the tree of memory with one put is queued to be closed, as far as the blocks are held that tell what leaves.
//!
//! A walk of `fo_takeout` goes down the slot that was and the slot that is; the bytes that its steps ask for are those that are held.
//!
//! Proved: the removals that are queued are, in order, those that the two slots and then the walk over memory give, whatever memory is said
//! to have of blocks that are not held: up to the end of the walk, to a block that is not held or whose label is of another kind, or to as
//! many removals as were allowed. Nothing else of the queue changes, and no memory is wanted.
//!
//! Not proved: that the blocks are held of which a step needs the bytes, and that the walk has room for each pair.
#![tactic(auto)]

mod taking;

pub use taking::take_put;
