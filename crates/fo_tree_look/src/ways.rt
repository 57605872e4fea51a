//! A source of bytes as a tree of blocks.
use fo_image::{BLOCK, Score};
use fo_tree_read::Tree;

/// A block that was fetched under this score and kind.
#[derive(Clone, Copy)]
pub struct Kept {
    pub score: Score,
    pub kind: u8,
    pub bytes: [u8; BLOCK],
}

/// Where a source hangs, the generation of its entry, the length up to which it can grow, and the blocks that were fetched for it.
#[derive(Drop)]
pub struct Ways {
    pub tree: Tree,
    pub generation: u32,
    pub limit: u64,
    pub kept: Vec<Kept>,
}
