//! Dates in UTC, of moments in seconds since 1970-01-01, by counting days: the plainest way, for files in memory.
//!
//! Proved: each answer is the calendar's.
#![tactic(auto)]

mod date;

pub use date::{Date, date_of, hour_minute_of};
