//! Tests of names that are added, changed, moved and removed, over blocks that tell nothing (`CarelessBlocks`),
//! and in a plain directory.
//!
//! The bytes of leaves were worked out by hand by docs/FORMATS.md. Not tested here: what a crash leaves, and waits.
#![tactic(auto)]

#[cfg(test)]
mod leaves;
#[cfg(test)]
mod moves;
#[cfg(test)]
mod names;
#[cfg(test)]
mod plain;
#[cfg(test)]
mod records;
