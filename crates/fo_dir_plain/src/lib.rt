//! A directory kept as a plain list of records: a plain program beside the directories over blocks.
//!
//! `PlainDirectory` is seen as the list of its records, in the order in which they came. A pair is *free* where no record has it as its
//! slot; a directory is *full* where none below 2^20 is free.
//!
//! Proved, by the words that the contracts of directories over blocks are said with: `lookup` gives the first record of a name, `next`
//! one of the least name after another, `free_pair` the least free pair. `add` puts a record at the end, with the least free pair;
//! `remove` takes the first of a name out; `change` does so and puts it at the end with another name. A call that is refused, for its
//! stated reason or for want of memory, leaves the list. Where no two records have one name, number or pair, each call keeps this (law
//! `records_differ`); a record that is added has to have a new number.
//!
//! Slow: each call goes through the list, and `free_pair` once for each pair.
#![tactic(auto)]

mod directory;
mod edits;
mod laws;
mod list;
mod refusal;

pub use directory::PlainDirectory;
pub use laws::records_differ;
pub use refusal::Refusal;
