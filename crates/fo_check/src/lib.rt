//! The images of two devices, looked at as far as their trees (flchk, fossil(4)).
//!
//! `open_images` writes nothing, and answers the super block and the active root, or the first refusal of a fixed order: sizes, S1, the
//! arena, S2, what isn't built, and S3.
//!
//! Proved over quiet devices that tell what they hold: what is found is so, and is found wherever it is; each refusal comes with its
//! reason. Over any devices: `Size` comes exactly where a number of blocks that was found is out of range; a fault comes only where that
//! device's count rose; the main device is called five times at most, and the arena twice; nothing is written.
//!
//! Not proved: anything of what a device holds that tells nothing, as a file; that a fault isn't passed over (`test_disk` lets each
//! call fail in turn).
#![tactic(auto)]

mod checker;
mod error;
mod opening;
mod reads;
mod rules;

pub use checker::open_images;
pub use error::CheckError;
pub use opening::Opening;
