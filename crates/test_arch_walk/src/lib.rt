//! Tests of the archiver (`fo_arch`) over whole trees, which are read from a cache over a disk in memory.
//!
//! Disks are made by hand from docs/FORMATS.md, byte by byte; the scores of their archives, and how many places these take, are from another
//! program.
#![tactic(auto)]

#[cfg(test)]
mod deep;
#[cfg(test)]
mod disks;
#[cfg(test)]
mod made;
#[cfg(test)]
mod small;
