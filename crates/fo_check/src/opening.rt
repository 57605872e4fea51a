//! What is known of images before their trees are looked at.

use fo_image::{RootBlock, Super};

/// What is known of images before their trees are looked at: the main device's number of blocks, its super block, and the active root.
#[derive(Drop)]
pub struct Opening {
    pub blocks: u32,
    pub s: Super,
    pub root: RootBlock,
}
