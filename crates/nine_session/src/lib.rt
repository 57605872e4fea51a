//! Sessions of 9P2000 over files (section 5 of the Plan 9 manual).
#![tactic(auto)]

mod attaching;
mod laws;
mod opening;
mod reading;
mod removing;
mod session;
mod stating;
mod walking;

pub use laws::reads_go_by_the_mode;
pub use session::Session;
