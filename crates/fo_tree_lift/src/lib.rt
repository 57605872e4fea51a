//! A source in a tree of blocks grows by a leaf for which its levels have no room, over any blocks.
//!
//! Proved, over any blocks and any device: where nothing stands behind the source's end, an older top is copied, levels are put above it,
//! and the leaf is current, with which the source ends then. All that `Bytes` asks of an owned leaf holds (`Owned`), of what changes, of
//! what was prepared, and of how many blocks it takes and leaves dirty; the source stands over the blocks, nothing stands behind its new
//! end, and where the device tells it has its bytes, and zeros behind them. No block that was there changes. `own_leaf` is this and the
//! other cases in one, for a leaf within the end or past it, of a source whose end has not to be zeroed: where it has, what that takes is
//! taken from the same blocks, and the parts are called after it (`fo_tree_grown`). `lift` puts the levels alone.
#![tactic(auto)]

mod leaf;
mod levels;
mod own;

pub use leaf::own_leaf;
pub use levels::lift;
pub use own::own_raised;

// Passed on, so that a crate above names this one alone.
pub use fo_tree_grow as tree_grow;
