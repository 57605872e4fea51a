//! Tests of the archived forms of blocks and of their scores (`fo_arch_hash`), by their public names.
//!
//! Scores that are wanted were computed by another SHA-1 over bytes that were worked out by hand from docs/FORMATS.md.
#![tactic(auto)]

#[cfg(test)]
mod forms;
#[cfg(test)]
mod scores;
