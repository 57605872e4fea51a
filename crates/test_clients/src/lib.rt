//! Tests of the small clients of blocks (`fo_ports_clients`), over blocks in memory (`PlainBlocks`) and over blocks that tell nothing
//! (`CarelessBlocks`), where every leaf is sealed.
//!
//! Bytes, slots and addresses that are wanted follow from what the calls promise. Not tested here: writing a byte, taking names out and
//! raising tops over a tree whose device tells what it holds.
#![tactic(auto)]

#[cfg(test)]
mod bytes;
#[cfg(test)]
mod names;
#[cfg(test)]
mod older;
#[cfg(test)]
mod tops;
