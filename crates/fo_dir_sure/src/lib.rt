//! Whether the leaves of a directory beside one are in every image what memory has, and stand there where memory has them.
//!
//! A name that memory has in no other leaf may come to a leaf only where no image has it in another one: so where this holds of all others, or
//! once all was settled. `others_are_sure` looks at where each leaf of a source stands, and reads none of them.
//!
//! Proved, over any blocks and any source: the call only looks, takes at most the pins that the ways to all leaves take, and refuses by its causes
//! alone. Where the device tells, it answers yes only where each other leaf stands in a block that every image has as memory has it, and that was
//! in place when all was last settled; it answers no only of a leaf that isn't known to be so.
#![tactic(auto)]

mod others;

pub use others::others_are_sure;
