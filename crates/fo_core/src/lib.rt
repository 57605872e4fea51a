//! The system: sixteen sessions over the files of two devices, which changes by turns.
//!
//! `State::open` checks two devices and opens them; `State::turn` answers an event: a request of a session, the end of a fid, a flushing
//! turn, an unlinking turn; `State::finish` settles all, writes the next file number, closes what was removed, and gives the devices back.
//! `close` gives them back as they are.
//!
//! Proved: what is said of a system is one record of a moment (`Moment`), and what becomes of an event one relation of two moments (`Goes`).
//! An opening has what was read, and a refusal its cause (`IsOpened`, `Refuses`); a request's reply is what its session says, over devices of
//! which nothing is told; a turn does what it answers; faults and want of memory are outcomes, and a fault is answered only where its device's
//! count rose. After an end that answers no failure all is settled, no removal is queued, the super block says the next file number, and the
//! main device is quiet, block 0 too (`Ends`). How often an end calls it is bounded where nothing is to be closed.
#![tactic(auto)]

mod moment;
mod state;
mod turns;

pub use fo_starting::Unopened;
pub use moment::Stands;
pub use state::{Finished, State, System};

// Passed on, so that a crate above names this one alone.
pub use fo_events::{Event, Flushed, Outcome, Unlinked};
