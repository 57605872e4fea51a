//! Tests of blocks on devices (`fo_devices`) by their public names: what is fetched from an arena, over disks in memory; and of a cache's
//! calls, requests and turns (`fo_cache`, `fo_settling`, `fo_reserving`, `fo_turning`) over a disk that tells nothing: what memory holds between them.
//!
//! Scores are from outside (`sha1sum`), and bytes of blocks were worked out by hand from docs/FORMATS.md.
#![tactic(auto)]

#[cfg(test)]
mod caching;
#[cfg(test)]
mod fetches;
#[cfg(test)]
mod memory;
#[cfg(test)]
mod minds;
#[cfg(test)]
mod settling;
