//! A script drives a file server turn by turn: what happens is exactly what its lines say (`fo_script_line`), in their order.
//!
//! The input is lines that end with a newline, of at most 131200 bytes before it. A longer line, input that ends inside a line, and a line
//! that is none of `fo_lines` are bad input at the place where that line begins; all lines before it were answered, and their answers put
//! out. A line that would take more than 2^62 turns ends the script. After each end all fids of all sessions are let go.
//!
//! Proved of `run_script`: which events happened, what became of each and what was put out, by each end, over whatever `Turner` takes the
//! turns. Not proved: that a wait for the input or for memory ends.
#![tactic(auto)]

mod end;
mod script;

pub use end::ScriptEnd;
pub use script::run_script;

// Passed on, so that a crate above names this one alone.
pub use fo_script_line::{Flushed, Turner, Unlinked};
