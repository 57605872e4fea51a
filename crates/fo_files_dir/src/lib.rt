//! Where the pair of entries of a file stands, in a block that may be changed.
//!
//! A `DirAt` is a directory and a `FileAt` another file, whose two entries stand side by side in a root block or a leaf of entries that was
//! owned (`IsDirAt`, `IsFileAt`): a data block, pinned, live and of the current epoch. Proved here: it stays there while the block keeps its
//! label and stays pinned, so over all calls that change no block but those that they give out, and over a settling.
#![tactic(auto)]

mod dir;

pub use dir::{DirAt, FileAt};
