//! A piece is put into a source in a tree, where the source has all its bytes already, over any blocks.
//!
//! Proved, over any blocks and any device: leaf by leaf, each is made current first; what changes is what `Changes` says of one call, what
//! was prepared stays so, the source with its new top stands over the blocks, and no more blocks are taken than `Bytes` allows. Where the
//! device tells, its bytes are those of the plain world's write. No image shows more in a leaf of records. Not here: a piece that ends past
//! the source's end.
#![tactic(auto)]

mod write;

pub use write::put_within;
