//! The labels of all blocks in memory, of which the least usable block is found without a walk over them.
//!
//! A block is usable where it may be given out: free, or closed where no snapshot that is kept holds it (the labels and epochs of
//! the Fossil paper). The labels stand in a list, in groups of 32, and a tree of minima says from which low epoch on a group has a
//! usable block. So a change and a search cost one step a level and look at one group, and a block takes its label and at most a byte.
//!
//! Proved: `alloc` gives the least usable block and none only where there is none, `close` and `restore` change one label, `usable`
//! counts, and `spell` fills a block of the label table with the labels whose place it is. Want of memory may be answered by `new` alone.
//!
//! Not proved: how long a search takes (`test_disk` makes 100,000 of them over 2^20 labels).
#![tactic(auto)]

mod groups;
mod index;
mod labels;
mod spell;

pub use labels::Labels;
