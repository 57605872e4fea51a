//! What each method of `Blocks` adds to the images that a crash may leave, as a step of a cache.
//!
//! `state_of` reads the state of the trait off what a cache knows of its blocks (`Known`) and what it keeps elsewhere (`Rest`). There are
//! images only where the device tells what it holds.
//!
//! Proved, one law a call: `get` looks; a put of bytes or of a slot adds the images with these alone; a slot that waits adds those with the
//! cleared slot and the leaf of now; waiting adds none; a block given out is in all images; a new limit of file numbers adds those with
//! that super block; writes, syncs, clearings and closings add none, and where a slot is cleared each image that is left would, with it
//! cleared, be one of before; all is settled where each block is; a number that is taken, a fetch and a root that is retired leave all that is
//! known of blocks. Over any number of steps of the device each image of a moment that passed is one of those of before, as far as tops
//! lead (`moments_pass`), and over `number` one of those of before or of after (`numbers`). What may be given out stands nowhere. Not here: what the frames say of counts, pins and coverings; several slots cleared in one call; places that
//! blocks keep over a flush.
#![tactic(auto)]

mod laws;

pub use laws::{
    Cells, device_rests, gives, holds_laws, leaves, looks, moments_pass, numbers, puts, removes,
    settles,
};
