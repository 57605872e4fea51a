//! A leaf of any source in a tree is made current, over any blocks.
//!
//! Proved, over any blocks and any device: all that `Bytes` asks of an owned leaf (`Owned`), of what changes, of what was prepared, and of
//! how many blocks it takes and leaves dirty. Where a plain source grows, zeros stand behind the end that it had. The source stands over
//! the blocks, and where the device tells it has its bytes, and zeros behind them. No image shows more in a leaf of records; an entry
//! that led to no more of these than memory's does so with the new top.
#![tactic(auto)]

mod leaf;

pub use leaf::own_leaf;
