//! The rules of sound images over values that were read: of a leaf of records, of a label, of a pair of entries.
//!
//! Proved: `read_leaf` answers the records that a block spells, and none exactly where it spells none; `may_have` and `has_pair` are
//! what `fo_good` says of labels and pairs. Want of memory may be answered by `read_leaf` alone.
#![tactic(auto)]

mod label;
mod leaf;
mod pair;

pub use label::may_have;
pub use leaf::read_leaf;
pub use pair::has_pair;
