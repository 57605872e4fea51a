//! What all that holds of a block cache gives of its device: labels of what an image reaches, which blocks get versions, and what a low epoch
//! that rises loses.
//!
//! Proved: all that stands is of the device, and each image of the device is, in all that settled tops reach, one that a crash may leave by
//! what is known; each block that they reach there stands at a place, and its label there has the kind and tag of the place, fits memory's, and may not be given out
//! (`device_is_shown`; `labels_are_shown` says so of any choice of versions). So it is of each moment of a write and of a sync, over any device
//! and whatever it answers (`write_shown`, `settle_shown`). A data block gets a new version only by a write while it is
//! dirty, and then it is live and current, or was closed in its own epoch after a failed write; where it isn't dirty nothing is written
//! (`write_live`). A sync gives none; where it answers Ok, a block has several versions only if its last write failed, and what isn't dirty
//! is there as memory has it (`settle_live`). What is closed and may not be given out yet is in the kept tree of the epoch before that at
//! which it was closed, over every step (`closed_are_kept`); where a cache opens that is so exactly if memory has it there, as over a fresh
//! device (`closed_begin`). So a low epoch that rises loses nothing but what left the tree without being closed, which is in the gap of some
//! step (`low_loses_none`).
#![tactic(auto)]

mod device;
mod laws;
mod moments;

pub use device::{settle_live, write_live};
pub use laws::{closed_are_kept, closed_begin, device_is_shown, labels_are_shown, low_loses_none};
pub use moments::{settle_shown, write_shown};
