//! How the blocks of both devices are divided (docs/FORMATS.md).

/// The bytes of a block.
pub const BLOCK: usize = 8192;

/// The pointers of a pointer block.
pub const POINTERS: usize = 409;

/// The labels of a block of the label table.
pub const LABELS: u32 = 585;

/// The lines of an index block of the arena.
pub const LINES: u32 = 341;
