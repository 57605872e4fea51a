//! Places of blocks.
use fo_image::Kind;

/// The logical place of a block: which block it is of those of its kind in the source with this tag, and its rank. A block is
/// written after those of lower ranks that it leads to or waits for.
#[derive(Clone, Copy, Debug, PartialEq, Eq)]
pub struct Place {
    pub kind: Kind,
    pub tag: u32,
    pub index: u64,
    pub rank: u32,
}
