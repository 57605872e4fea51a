//! A directory is looked at, over any blocks and any source of bytes.
//!
//! A directory has two sources: one of records, whose leaves are those of `fo_meta`, and one of entries, a *pair* for each name.
//! `lookup` finds the record of a name, `pair` the two entries of a pair, and `free_pair` the least pair that may be taken. A leaf is
//! pinned (`pin_leaf`) and looked at where the blocks lend it; where they don't, it is copied (`copy_leaf`).
//!
//! Proved, over any blocks and any source: the calls only look, take at most the pins that reading each leaf takes, and refuse by their
//! causes alone; a damaged block is answered only where the device doesn't tell what it holds. Where it tells, `lookup` gives the
//! first record of the name that memory has, or says that no leaf has one; and `free_pair` gives the least pair of which no entry is in
//! use in memory or waits to be cleared. `pair` gives the entries as memory has them. Over any device a record that is found has the
//! name, in a leaf of the source, and it, and the entries of a pair, can be spelled. Not said: that names differ; who changes
//! directories keeps that.
#![tactic(auto)]

mod entries;
mod leaves;
mod records;

pub use entries::{entry_from, free_pair, pair};
pub use leaves::{copy_leaf, count_of, pin_leaf};
pub use records::{Found, lookup};
