//! Tests of the archiver (`fo_arch`) over an arena in memory.
//!
//! Pieces are stored and archives finished from forms that another program made from docs/FORMATS.md, as were the scores that are wanted;
//! batches are read from a new device in memory, which has a root block alone. `test_arch_walk` has batches of
//! larger trees.
#![tactic(auto)]

#[cfg(test)]
mod archives;
#[cfg(test)]
mod batches;
#[cfg(test)]
mod forms;
#[cfg(test)]
mod looks;
#[cfg(test)]
mod made;
