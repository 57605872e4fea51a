//! Slots of blocks.
use fo_image::{Entry, Pointer};

/// A slot of a block: a pointer of a pointer block, an entry of an entry leaf or of a root block, or the epoch and address of
/// the root block before.
#[derive(Clone, Copy, Debug, PartialEq, Eq)]
pub enum Slot {
    Pointer(Pointer),
    Entry(Entry),
    Prev(u32, u32),
}
