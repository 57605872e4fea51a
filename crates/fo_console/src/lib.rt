//! The lines of the console: commands read, and replies written (fossilcons(8) of the Plan 9 manual).
#![tactic(auto)]

mod answer;
mod command;
mod error;
mod read;
mod words;
mod write;

pub use answer::Answer;
pub use command::Command;
pub use error::LineError;
pub use fo_world::{Info, Name};
pub use read::read_line;
pub use write::write_reply;
