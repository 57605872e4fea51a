//! The way to a file that was found is made ready to be changed by two calls, over any blocks of a device that tells nothing.
//!
//! `plan_along` plans the whole way: behind the root block, for each directory on the way, the leaf of its entries that has the pair of the
//! next file. It only looks, and all refusals come there. `own_way` then owns these leaves from the root down and links their sources, and
//! refuses nothing. So block k of the way has the pair of the k-th file on it; `dir_at` and `file_at` say where that stands.
//!
//! Proved: a plan has a block more than the trail has numbers, the first is the root block, and level k is the leaf of directory k with the
//! pair of the next file, whose entry stands in block k where directory k's own pair says; no entry of a level stands in the last block, and
//! a level takes at most five blocks to own. Where it is owned, each block is a data block, pinned, live and of the current epoch, of the
//! kind that it had, and two of them are two blocks; each has what it had, but for the entries that were linked, and hangs by its source's entry
//! from the block above it. A refused plan has its cause. Not said: what holds of images; that the pair in a block is that of a record, which is for who opens its sources.
#![tactic(auto)]

mod along;
mod dir;
mod own;

pub use along::plan_along;
pub use dir::{dir_at, file_at};
pub use own::own_way;

// Passed on, so that a crate above names this one alone.
pub use fo_files_way as files_way;
pub use fo_files_way::files_at;
