//! Where a source hangs.

/// From which slot a source hangs: the number of the source that holds its entry, the index of the block there, and the slot of that
/// block. A source that hangs from no slot has zeros.
#[derive(Clone, Copy)]
pub struct Home {
    pub(crate) hangs: bool,
    pub(crate) source: u32,
    pub(crate) index: u64,
    pub(crate) slot: u32,
}
