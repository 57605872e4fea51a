//! Room for the calls of one request, so that none of them wants memory.
//!
//! How much is needed follows from what is asked, from the blocks that owe a turn or were made, and from the slots that wait: no block is
//! looked at. Then each part makes its room.
//!
//! Proved: the sums; after Ok each part has at least what was summed up; whether it is Ok or not, nothing of a part changes but its room,
//! which grows. Want of memory may be answered by `grow` alone.
//!
//! Not proved: that this is as much as the calls of a request use up.
#![tactic(auto)]

mod parts;
mod rooms;

pub use parts::grow;
pub use rooms::{Rooms, Wants, rooms_for};

// Passed on, so that a crate above names this one alone.
pub use fo_linking::Worklist;
pub use fo_takeout::{Put, Walk};
