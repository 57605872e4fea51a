//! Tests of what leaves the tree with a put (`fo_takeout`), by its public names.
//!
//! Blocks and what leaves were worked out by hand from docs/CACHE.md. Nothing here is said of any caller.
#![tactic(auto)]

#[cfg(test)]
mod walks;
