//! What is said of a sound image.

/// What is said of a sound image: how many blocks the main device has, how many of them a tree or the chain of roots
/// from the low epoch on reaches, how many data blocks are neither used nor may be given out, and how many snapshots
/// are kept.
#[derive(Clone, Copy, Debug, PartialEq, Eq)]
pub struct Report {
    pub blocks: u32,
    pub used: u32,
    pub leaked: u32,
    pub snapshots: u32,
}
