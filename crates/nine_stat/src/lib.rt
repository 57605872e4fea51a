//! Stat records of 9P2000 as values (stat(5) of the Plan 9 manual).
#![tactic(auto)]

mod cut;
mod error;
mod read;
mod stat;
mod write;

pub use cut::cut_dir;
pub use error::{CutError, StatError};
pub use read::read_stat;
pub use stat::Stat;
pub use write::write_stat;
