//! Tests of the crate fo_sessions: two sessions over one tree of files in memory.
#![tactic(auto)]

#[cfg(test)]
mod sessions;
