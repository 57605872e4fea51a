//! The top call: the commands of the program, over any devices, source, sink and clock.
//!
//! Proved of `run`: what each command does and says, by how it ends; the cause of each end; its status and its text. `9p` and `turns` open
//! both devices, or say why not and write nothing; what then happens to the system is told moment by moment, from the opening to the
//! end, which settles all and leaves no removal queued, whatever came before it. Not proved: what the program's `main` puts in, which is
//! the system's own streams, files and clock, and that files have what was written to them.
#![tactic(auto)]

mod command;
mod system;
mod text;
mod top;
mod why;

pub use command::Command;
pub use top::{Done, run};
pub use why::Why;
