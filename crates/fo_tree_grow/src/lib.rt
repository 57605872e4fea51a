//! A source in a tree of blocks grows by a leaf past its end, over any blocks.
//!
//! Proved, over any blocks and any device: where the source's levels have room for the leaf, and nothing stands behind its end, the leaf
//! is current, and the source ends with it. All that `Bytes` asks of an owned leaf holds (`Owned`), of what changes, of what was prepared,
//! and of how many blocks it takes and leaves dirty; the source stands over the blocks, and where the device tells it has its bytes, and
//! zeros behind them.
#![tactic(auto)]

mod first;
mod next;

pub use first::own_first;
pub use next::own_next;

// Passed on, so that a crate above names this one alone.
pub use fo_tree_leaf::{Current, is_current, own_way, own_within};
pub use fo_tree_raise::{copy_top, raise_levels};
