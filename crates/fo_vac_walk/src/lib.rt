//! Sources of an archive, read by scores alone over what an arena holds (docs/FORMATS.md, "Archived forms").
//!
//! A *source* is an archived entry, with the block of the arena's device that names it. Its leaves hang below pointer blocks; the
//! score of the empty block is nil, and a leaf that is not there reads as zeros. A block that an archive names is *lost* where the
//! arena doesn't hold it; it is *bad* where it doesn't hash to its score, or is not of its form. Both are damage: of the block that
//! names the lost one, and of the bad block itself.
//!
//! Proved over any device: nothing changes, and a fault comes only where the device's count rose. Proved over a device that tells what
//! it holds: `leaf`, `entry` and `read` give just what the blocks held give along the source's paths (`fo_vac_open`), and what is
//! called damaged is lost or bad, at the block that is named.
#![tactic(auto)]

mod block;
mod error;
mod leaf;
mod read;
mod source;

pub use error::WalkError;
pub use source::Source;
