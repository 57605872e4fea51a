//! Why a source of an archive was not read.
use thiserror::Error;

/// Why a source of an archive was not read.
#[derive(Clone, Copy, Debug, PartialEq, Eq, Error)]
pub enum WalkError {
    /// This block of the arena's device is bad, or names a block that is not held.
    #[error("damaged block {0}")]
    Damaged(u32),
    /// A block of the arena's device could not be read.
    #[error("arena read fault")]
    ArenaRead,
    /// There is no memory.
    #[error("no memory")]
    Memory,
}
