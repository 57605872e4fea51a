//! One line of a script that drives a file server turn by turn: which events it makes, and what is put out for it.
//!
//! Every event has the moment of the last line `t`, 0 before the first.
//!
//! - `t SECONDS` sets that moment, and has no answer.
//! - `s N HEX` is answered `s N HEX`, the reply under the message's tag. The bytes are exactly one message, of no more bytes than the
//!   session allows, or else the line is bad. Before a Tversion all fids of the session are let go. A session that agreed to 9P2000 allows
//!   the msize of that reply, until `h` or another Tversion; one that did not allows as many bytes as the largest message has.
//! - `h N` lets all fids of the session go, and is answered `h N`.
//! - `f` and `u` are one flushing or one unlinking turn. A turn whose answer has no word (a slot was cleared, a block passed over, a
//!   removal given up) is followed by the next one at once.
//! - `F` is flushing turns until one is idle, and then unlinking turns until one waits, which leads back to flushing turns, or finds
//!   nothing; it ends at the first fault.
//! - `c LINE`, `a` and `A` are not built yet: nothing happens, and the answer says so.
//!
//! A line takes at most 2^62 turns.
//!
//! Proved of `answer_line`: which events happened, what became of each and what was put out, or why the line was not answered to the end.
#![tactic(auto)]

mod answer;
mod line;
mod number;
mod sessions;
mod turns;

pub use answer::Answer;
pub use line::{Kept, LONGEST_LINE, Stop, answer_line};
pub use sessions::let_everyone_go;
pub use turns::{Next, Stage};

// Passed on, so that a crate above names this one alone.
pub use fo_events::{Flushed, Turner, Unlinked};
