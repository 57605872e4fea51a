//! What a put of a slot costs, and in whose place blocks are to come after it.
//!
//! A block that is put is apart no more. Where it is put into slot 0 of a new block of pointers from which nothing hangs, that block is
//! raised over it, and comes in its place, or in the place of that in whose place it was to come.
//!
//! Proved: the cost is that of the contract of `Blocks`; whether a block is raised, exactly; which facts change, and that no count does.
//! No call wants memory.
#![tactic(auto)]

mod looks;
mod marks;
mod price;

pub use looks::{is_raised, leads_nowhere};
pub use marks::note_put;
pub use price::cost;
