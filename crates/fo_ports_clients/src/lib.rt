//! Small clients of the blocks below a cache, over any implementation: what the layers above do, in little.
//!
//! A block is *owned* once it is of the current epoch: an older one is copied, and the slot that led to it is led to the copy. A *name*
//! is a byte of a leaf of names, the generation of the entry that it names. The *top* of a source is the block that its entry leads to.
//!
//! Proved, over any blocks and any device: `write_byte` writes into copies, up to the root block, and every image shows the other leaves
//! as one of before does; after `add_name` and `remove_name` each name has its entry in use in every image; `add_name_if_sealed` adds
//! one only where the leaf is sealed; after `raise_top` a source has one level more, and an image has the new top whole; a byte that
//! `older_byte` gives is in every image. Each call gives what it makes its place in the tree, so nothing more is left that is to come in
//! the place of another block. Where the device tells what it holds, a name is put only into a leaf that hung in the tree when all was
//! last settled. What waits to be cleared goes on to wait, and only what is given out is usable no more. What no client may put is the
//! contract of `puts_are_refused`. Not said: what is found once the device was read anew.
#![tactic(auto)]

mod bytes;
mod names;
mod older;
mod refused;
mod tops;

pub use bytes::write_byte;
pub use names::{add_name, add_name_if_sealed, remove_name};
pub use older::older_byte;
pub use refused::{one_path_leads, puts_are_refused};
pub use tops::raise_top;
