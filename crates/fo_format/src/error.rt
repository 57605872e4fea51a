//! Why nothing was formatted.
use fo_disk::DiskFault;
use thiserror::Error;

/// Why a format was refused, or broken off.
#[derive(Clone, Copy, Debug, PartialEq, Eq, Error)]
pub enum FormatError {
    /// The main device has below 64 or above 2^20 blocks, or the arena below 16 or above 2^20.
    #[error("size of a device out of range")]
    Size,
    /// The main device failed.
    #[error("main device: {0}")]
    Main(DiskFault),
    /// The arena's device failed.
    #[error("arena: {0}")]
    Arena(DiskFault),
    /// There is no memory.
    #[error("no memory")]
    Memory,
}
