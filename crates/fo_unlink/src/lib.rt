//! The removals that wait: which blocks they close, and in which order.
//!
//! A removal is a tree of blocks that nothing names any more, or one block, and waits until the block that no longer names it is
//! settled. A queue closes what is below a block before the block itself, and removals in the order in which they came. Its way is
//! the path from the top of the first tree down to where it goes on.
//!
//! Proved: a block that a step closes is the next of all that is left to close, a reading brings it nearer, a step waits or finds
//! the queue empty exactly where it has to, and a push adds what its tree has. Whatever blocks hold, also where one reads differently
//! each time, a step that closes or reads lowers the work that is left, and at most five readings follow one another. The caller
//! reads the blocks that a step asks for, and tells whether a block is settled. Want of memory may be answered by `new` and `reserve`
//! alone.
//!
//! Not proved: that blocks hold what the caller says of them.
#![tactic(auto)]

mod queue;
mod removal;
mod slots;
mod way;

pub use queue::Queue;
pub use removal::{Removal, Step};
