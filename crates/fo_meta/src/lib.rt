//! A meta leaf is a list of records: the blocks that hold the names of a directory (docs/FORMATS.md).
//!
//! A leaf has the records one after the other, in the order in which they came, and zeros behind them.
//!
//! Proved: over a leaf of some records, `find` answers the first of a name, `insert` adds one at the end, `remove` takes the first
//! of a name out and closes up, and `replace` does both; a call is refused for room exactly where the records don't fit, and then
//! the leaf stays. Want of memory may be answered by `find` alone.
//!
//! Not said: that names differ; the caller keeps that.
#![tactic(auto)]

mod error;
mod leaf;

pub use error::MetaError;
pub use leaf::{empty_leaf, find, insert, remove, replace};

// Passed on, so that a crate above names this one alone.
pub use fo_image::{Entry, Kind, Label, Pointer, Score, is_zero, read_pointer, score_at};
