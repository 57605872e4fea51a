//! A snapshot, from when its new root is given out until the super block that names it counts, or the snapshot is given up.
//!
//! `HoldsBetween` is what holds then: what held before (`HoldsWhole`), with nothing made; trees, super blocks and what is beside as ever, with
//! the new root as a top; and that nothing changed since in memory but the new root, which leads where the old one leads.
//!
//! Proved: giving the new root out adds that block to the images, in all of them, and makes it hold; a super block that names the new root adds
//! the images with it when it is tried, and keeps it; a write and a sync over any device, whatever it answers, add no image and keep it, the
//! write of the new root too; once that super block is alone on the device and all else is settled the whole holds again, in the next epoch;
//! and so it does where block 1 has on the device what memory has, with the new root queued. Neither end adds an image. Not here: other calls
//! in between, which none makes.
#![tactic(auto)]

mod device;
mod laws;

pub use device::{settle_between, write_between};
pub use laws::{snapshot_begins, snapshot_ends};
