//! A conversation over a stream: messages in, replies out, one after another, by whatever `Machine` answers them.
//!
//! Proved of `serve`: what is said, in which order and at which readings of the clock, is the conversation on the bytes of the
//! input, by each of its ends. Not proved: that a wait for the input or for memory ends.
#![tactic(auto)]

mod end;
mod machine;
mod outbox;
mod service;
mod turns;

pub use end::LinkEnd;
pub use machine::Machine;
pub use service::serve;
