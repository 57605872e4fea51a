//! Removals of the active epoch and of earlier ones, and the closing of what they have left.
//!
//! A removal is seen from the tops of its epoch: block 1, what was made, and the kept roots of epochs from that one on (`tops_from`), since
//! older snapshots may still hold what it closes. `IsQueue` has all removals in order, each behind those before it, with the division of
//! the blocks of the active trees (`fo_cells_out`): no block waits twice, and what waits is live.
//!
//! Proved: `IsQueue` is kept by every step that only takes away, by a put and a clearing (from what `fo_cells_out` says of them), by a block
//! that is given out, which is in no tree and waits for nothing, by closing, and where the low epoch rises. The next block of the first
//! removal, of an earlier epoch or of the active one, is closed at that epoch once the block after which it comes is set: it stands
//! nowhere, or only in older kept trees, which may have its label. Not here: that the queue of a snapshot becomes one of earlier epochs.
#![tactic(auto)]

mod laws;

pub use laws::{Queues, queue_closes, queue_gives, queue_grows, queue_stays, queue_stays_low};
