//! The tree that an image shows, read off the records of its directories.
//!
//! Proved, of any image, as the contracts of functions that do nothing: what the file step tells on the active tree is what the records of
//! directories tell, and a change of one record in each directory on a way, and of one file at its end, is that of the file step.
#![tactic(auto)]

mod laws;

pub use laws::{changes_are_shown, looks_are_told};
