//! Two devices are checked, and opened as blocks.
//!
//! `open_devices` checks the image of the main device and the arena, and then opens a cache on the one and an arena on the other. Nothing is
//! written, and a refusal gives both devices back.
//!
//! Proved: what is opened has what was read (`Begins`). Over quiet devices that tell it is a sound image, and a refusal says why it isn't,
//! or is a fault or want of memory; an image that is sound is refused for these alone. Over any devices a fault is answered only where
//! its device's count rose, and `Size` only where neither did.
#![tactic(auto)]

mod opening;

pub use opening::{Unopened, open_devices};

// Passed on, so that a crate above names this one alone.
pub use fo_devices as devices;
pub use fo_opening as opens;
