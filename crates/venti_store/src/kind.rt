//! The kinds under which the blocks of an archive stand that say where it begins.

/// The kind of the root of an archive.
pub const ROOT: u8 = 16;

/// The kind of a top block.
pub const TOP: u8 = 17;
