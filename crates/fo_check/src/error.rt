//! Why there is no report.
use fo_disk::DiskFault;
use thiserror::Error;

/// Why the check gives no report.
#[derive(Clone, Copy, Debug, PartialEq, Eq, Error)]
pub enum CheckError {
    /// The main device has below 64 or above 2^20 blocks, or the arena below 16 or above 2^20.
    #[error("size of a device out of range")]
    Size,
    /// Block 0 of the arena is not of its format, or says another number of blocks or more used places than there are.
    #[error("not an arena")]
    NotArena,
    /// The image has a part that is not built yet: snapshots, files or archives.
    #[error("image not built yet")]
    NotBuilt,
    /// The lowest rule that is broken, and a block of the main device at which it is broken. Rule 1 says that the device
    /// has a header and a super block.
    #[error("unsound S{rule} at block {block}")]
    Unsound { rule: u8, block: u32 },
    /// The main device failed.
    #[error("main device: {0}")]
    Main(DiskFault),
    /// The arena's device failed.
    #[error("arena: {0}")]
    Arena(DiskFault),
    /// There is no memory.
    #[error("no memory")]
    Memory,
}
