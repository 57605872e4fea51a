//! Levels are put above the top of a source in a tree, over any blocks.
//!
//! Proved, over any blocks and any device: a block is given out one level above the source's top, its first slot leads where the top was,
//! and all its others lead nowhere. No other block changes, in memory and in every image, and none is to be closed; what hung somewhere
//! hangs still. The new top stands at its place, is put nowhere yet, and may be raised over again. What was prepared stays so, and what was
//! clear behind the end; where the device tells each block of the source stands one level further down. An entry with the new top leads to
//! no more leaves of records than memory's, where one with the old top led to no more. An older top is copied first; a current one may be
//! raised over, of a source of entries where it hangs from block 1. Left dirty are the blocks that were given out and those of their
//! labels.
#![tactic(auto)]

mod climb;
mod hold;
mod laws;
mod raise;

pub use climb::raise_levels;
pub use hold::copy_top;
pub use laws::may_raise;
pub use raise::raise_once;

// Passed on, so that a crate above names this one alone.
pub use fo_tree_read::Tree;
