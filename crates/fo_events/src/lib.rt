//! What happens to a file server of sixteen sessions, what becomes of it, and what takes such turns.
//!
//! A `Turner` answers requests, lets fids go, and takes single turns of settling and closing, one after another. A contract over one says which
//! events there were, in which order, and what became of each (`Chain`): it speaks of lists alone.
#![tactic(auto)]

mod event;
mod turner;

pub use event::{Event, Outcome};
pub use turner::Turner;

// Passed on, so that a crate above names this one alone.
pub use fo_turning::{Flushed, Unlinked, flush_turn, unlink_turn, usable};
