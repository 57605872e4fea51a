//! Files over formatted disks in memory, and requests on them, for tests: `Files` over a cache on a main device of 64 blocks, with an arena of 16
//! beside it.
//!
//! `Disks` are such devices with one version of each block, `opened` are the files on them, and `closed` what a run leaves of both, of which `image`
//! makes disks as a crash may leave them. `that_fail` copies disks to such as fail at a call. `requests` asks files by trails and names, over any blocks.
#![tactic(auto)]

pub mod disks;
pub mod requests;

// Passed on, so that a crate above names this one alone.
pub use fo_files::Files;
