//! The check of a whole tree: every block that a root leads to, then the names of each directory.
//!
//! Proved: over any device `check_tree` ends and writes nothing, and says that a read failed only where the device's count of faults rose.
//! **A report took at most one call for each block of the label table and one for each block that is used**, and a refusal no more calls
//! than the device has blocks. Want of memory is answered without a cause. No rule is named but one of 5 to 9; one no higher than 5 is
//! where an entry of the root is of more than four levels, and one no higher than 6 where its entries are not those of a root.
//!
//! Over a quiet device that tells, a report says that the label table is sound, that each block to which a path from the root leads has a
//! label that may stand at its place (S4), how many blocks are reached so, and how many are leaked. What is refused breaks S4 at that
//! block. **A report names the lowest rule that is broken, at a block where it is broken** (docs/FORMATS.md states them): unless a rule no
//! higher than 5 is named, each block is of its format, a leaf of records is one, and no name stands twice in a directory; unless one no
//! higher than 6 is, the root's entries are those of a root, each record of a directory to which names lead has its pair, and no two have
//! one; unless one no higher than 7 is, no block is at two places; 8 is of depths and file numbers, 9 of scores. **One that names no rule
//! says that the tree is sound; where the table and the tree are sound, no rule is named, and nothing is refused for its label.**
//!
//! Where a block is at two places, this is said of records in blocks at one place, with names and pairs that lead there by such blocks, and
//! no record is said to lack a pair to which the way goes by another. What is named is broken there in any case.
#![tactic(auto)]

mod blocks;
mod broken;
mod folder;
mod tree;
mod walk;

pub use broken::Broken;
pub use fo_check_labels::{Reads, TreeError};
pub use tree::{Found, Setting, check_tree};
