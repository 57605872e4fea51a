//! Tests of the crate fo_script: scripts over sources and sinks in memory, and over sessions that share plain files.
#![tactic(auto)]

#[cfg(test)]
mod ends;
#[cfg(test)]
mod lines;
#[cfg(test)]
mod served;
