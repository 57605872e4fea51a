//! Tests of `fo_opening` and `fo_ending` over formatted disks in memory of 64 blocks, by their public names: what is opened, what stays over
//! an end and a new opening, an end where a removal is queued, and each call of a device failing in turn.
//!
//! What is wanted follows from docs/FORMATS.md, and bytes were worked out by hand: 3 to 63 are data blocks, and the root is block 3.
#![tactic(auto)]

#[cfg(test)]
mod disks;
#[cfg(test)]
mod ending;
#[cfg(test)]
mod opening;
