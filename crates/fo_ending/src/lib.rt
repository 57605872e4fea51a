//! A cache is ended, and all is closed that is queued.
//!
//! An end settles all, and writes the next file number. Where removals are queued then, their blocks are closed, by turns of closing at
//! rest, until none is left; and the labels that changed are settled by a second settling. Where memory is wanting for a turn, what was
//! closed until then is settled, and a block is closed where all is settled, which wants none. The queue is in memory alone: what an end
//! left in it would stay live on the device, where nothing leads to it. So an end takes time in what is queued.
//!
//! Proved: where `end` answers Ok, all is settled, no removal is queued, block 1 says the next file number, and the device is quiet
//! (`Ended`, `Finished`). Whatever it answers, block 0 is as it was, and, where no slot waited, memory has of each data block the bytes
//! that it had. It fails only where the device does; the first failure is told, and what was closed until then is settled. Where nothing
//! may be closed it calls the device as often as one settling at most (`calls_left` of `fo_cache`).
//!
//! Not proved here: what is said of crash images, places and moments; how often the device is called where something is closed.
#![tactic(auto)]

mod calm;
mod drain;
mod ending;

pub use ending::end;

// Passed on, so that a crate above names this one alone.
pub use fo_opening::{Why, finish, open};
