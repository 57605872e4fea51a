//! Tests of the archived forms (`fo_vacput`), by their public names.
//!
//! Bytes that are wanted were worked out by hand from docs/FORMATS.md. Nothing here is said of any caller.
#![tactic(auto)]

#[cfg(test)]
mod cut;
#[cfg(test)]
mod entry;
#[cfg(test)]
mod root;
#[cfg(test)]
mod top;
