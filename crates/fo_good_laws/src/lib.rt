//! What is proved of sound and good images (`fo_good`), as the contracts of functions that do nothing.
//!
//! Proved: devices that were just formatted are sound, and are opened as the empty world of that moment and as no other, and no block of
//! them is lost; where no file and no snapshot is there, an image is sound by `fo_good` exactly where it is by `fo_sound`; the world of a sound image is within the limits,
//! and names lead 64 directories down at most; devices that were opened are good for their world, with nothing stale and nothing in doubt;
//! a good image of that kind shows all of its world.
//!
//! Not said here: what goodness is over steps (`fo_good`), which the calls say that make them.
#![tactic(auto)]

mod laws;

pub use laws::{
    empty_images_are_sound, fresh_images_are_sound, good_images_show_all, opened_images_are_good,
};
