//! Sixteen sessions of 9P2000 over one tree of files.
//!
//! Proved: an event of one session is that session's own (`nine_session`), with the files open for exclusive use as all sessions have
//! them, and every other session stays as it was.
#![tactic(auto)]

mod sessions;

pub use sessions::{SESSIONS, Sessions};
