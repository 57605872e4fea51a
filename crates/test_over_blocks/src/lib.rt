//! Tests of what stands over blocks, by public names: slots and places (`fo_crash`), the leaves of a directory's records (`fo_meta`),
//! the removals that wait (`fo_unlink`), slots in bytes (`fo_slots`), blocks in memory (`fo_ports_plain`), sources of bytes over them
//! (`fo_ports_source`), and blocks and files that tell nothing (`test_blocks`).
//!
//! Bytes that are wanted were worked out by hand from docs/FORMATS.md. Nothing here is said of any caller.
#![tactic(auto)]

#[cfg(test)]
mod blocks;
#[cfg(test)]
mod crash;
#[cfg(test)]
mod files;
#[cfg(test)]
mod meta;
#[cfg(test)]
mod queues;
#[cfg(test)]
mod silence;
#[cfg(test)]
mod slots;
#[cfg(test)]
mod sources;
#[cfg(test)]
mod unlink;
