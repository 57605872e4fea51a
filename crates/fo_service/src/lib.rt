//! One session of a turner, as a machine that answers the messages of a stream.
//!
//! Between two messages, once one was answered, the turner takes at most four flushing turns, fewer where one is idle or fails, and then
//! one unlinking turn. Proved: each reply, each fid that is let go and each turn is the turner's own, for this session, and nothing else
//! happens to the turner (`Serves`). Not proved: how long a turn takes.
#![tactic(auto)]

mod session;
mod turns;

pub use session::OneSession;

// Passed on, so that a crate above names this one alone.
pub use fo_events::Turner;
