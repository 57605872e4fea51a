//! The whole invariant of a block cache in one record, and that every step keeps it.
//!
//! `HoldsWhole` is what holds of all that a cache keeps (`HoldsAll` of `fo_cells_all`, with what was made), and what closed labels say: what was
//! closed and may not be given out yet is in the kept tree of the epoch before that at which it was closed, and that tree has each older block
//! that hangs or waits; that no super block is in doubt where block 1 is settled with memory's; and that what leaves wait for is in use in
//! memory. That all which stands is of the device is a part of it.
//!
//! Proved: it holds where a cache opens over a settled device, exactly if memory has closed and older blocks in kept trees; it is kept by each
//! call in memory, by each block that is given out, indexed, queued alone or closed, by super blocks of one epoch, by a low epoch that rises
//! and keeps just the roots from it on, by a snapshot that begins or is given up, and by a write and a sync over any device, whatever it
//! answers. `Rooted` has the tops as a list of its own: the invariant holds of no empty one. Which images each adds is said by the crates below.
#![tactic(auto)]

mod device;
mod laws;
mod rooted;

pub use device::{settle_whole, write_whole};
pub use laws::{
    blocks_keep_whole, calls_keep_whole, closings_keep_whole, no_tops_are_refused,
    opening_is_whole, puts_keep_whole, snapshots_keep_whole, supers_keep_whole, waits_are_used,
    whole_is_within,
};
pub use rooted::{Knows, Rooted};
