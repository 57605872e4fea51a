//! A snapshot begins: what it does to removals.
//!
//! From before the new root is given out until the super block that names it counts, nothing but block 1 and the new root changes in memory,
//! and all is settled (`BeginsQueue`). Proved: then the removals of the epoch that ended are removals of an earlier one, seen from the old
//! root too, which is a kept one now; the old root waits alone, after block 1; all that was in the tree is older; and `IsQueue` holds again.
//! Not here: what is so while the super block is in doubt, or where it is never settled.
#![tactic(auto)]

mod laws;

pub use laws::{Begins, snapshot_keeps_queue};
