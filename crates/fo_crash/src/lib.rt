//! What a crash may leave of a tree of blocks: definitions and lemmas for a cache that writes in any order, and for all that
//! stands on it.
#![tactic(auto)]

mod calls;
mod place;
mod slot;

pub use place::Place;
pub use slot::Slot;
