//! The tools over the two devices: `flfmt` formats them and `flchk` checks them (fossil(4)), each printing a line.
//!
//! Proved of each: what is printed and what the devices hold, by how it ends; the cause of each end, over any devices. Not proved:
//! that a real device holds what was written to it.
#![tactic(auto)]

mod end;
mod line;
mod tools;

pub use end::ToolEnd;
pub use tools::{flchk, flfmt};
