//! A directory over blocks in memory, for tests: the root directory of a device that keeps epochs, with its records and their pairs of entries.
//!
//! `device` is a new device, and `begin_root` puts an empty root directory on it. `make`, `remove` and `rename` change it, each behind a
//! reservation of its own, and link what they make; a record that outgrows its leaf moves to another one first. `found`, `next_record` and
//! `free` look at it, `opened` gives one of its two sources, and `leaf_at` a leaf of that. What isn't there is answered by `false` or `None`; a
//! source with more than one level of pointers (so more than 409 leaves) counts as none.
//!
//! Proved, over any blocks that tell what they hold and have pins for all: each call may be made where nothing is to come in the place of
//! another block, and leaves it so. What a directory has then is not said: the programs over it compare that (`test_epochs`, `compare_names`).
#![tactic(auto)]

mod blocks;
mod finds;
mod leaf;
mod names;
mod own;
mod parts;
mod renames;
mod root;
mod steps;

pub use blocks::{begin_root, device};
pub use finds::{found, free, next_record};
pub use leaf::leaf_at;
pub use names::name;
pub use parts::Part;
pub use renames::rename;
pub use root::opened;
pub use steps::{make, record, remove};
