//! Tests of the archived forms of blocks that name others (`fo_arch_form`), by their public names.
//!
//! Scores that are wanted were computed by another SHA-1 over bytes that were worked out by hand from docs/FORMATS.md.
#![tactic(auto)]

#[cfg(test)]
mod pointers;
