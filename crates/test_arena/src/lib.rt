//! Tests of the arena (`venti_store`) by its public names, over disks in memory.
//!
//! Scores are from outside (`sha1sum`), bytes of blocks were worked out by hand from docs/FORMATS.md, and the two blocks of one
//! score are those of the SHAttered collision.
#![tactic(auto)]

#[cfg(test)]
mod blocks;
#[cfg(test)]
mod collisions;
#[cfg(test)]
mod faults;
#[cfg(test)]
mod holds;
#[cfg(test)]
mod opens;
