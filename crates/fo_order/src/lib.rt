//! Which block is written next, and what a write, a sync and a failure do to the flags of blocks.
//!
//! A block is dirty from when memory changed it until a write of it answers Ok, then written until a sync answers Ok. The next to be
//! written is a dirty block of least rank, and only where no block of a lower rank is unsettled. Ranks fall along whatever a block
//! names or waits for, so all of that is settled by then.
//!
//! Proved: what each call does to the flags; `turn` gives a dirty block of least rank, below which nothing is unsettled, asks for a sync
//! only where something was written, and is idle exactly where all is settled. Want of memory may be answered by `new` and `reserve`
//! alone.
//!
//! Not proved: how long a call takes, and that of blocks of one rank the one that is dirty longest comes first.
#![tactic(auto)]

mod marks;
mod order;
mod table;

pub use marks::{Flags, Mark, Tried};
pub use order::{Order, Turn};
