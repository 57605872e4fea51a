//! Dated names: the paths yyyy/mmdd/hhmm of snapshots and archives (fossil(4) of the Plan 9 manual).
#![tactic(auto)]

mod names;

pub use fo_world::Name;
pub use names::{DatedName, dated};
