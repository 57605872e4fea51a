//! Tests of a file that is made, written, changed and taken out of a directory, over blocks that tell nothing (`CarelessBlocks`).
//!
//! Lengths and records are wanted by hand from docs/FORMATS.md. Not tested here: what a crash leaves, waits and settlings, and the way to a
//! file.
#![tactic(auto)]

#[cfg(test)]
mod dir;
#[cfg(test)]
mod life;
#[cfg(test)]
mod tests;
