//! Why calls on blocks are refused.
use fo_disk::DiskFault;
use thiserror::Error;

/// A call on blocks was refused.
#[derive(Clone, Copy, Debug, PartialEq, Eq, Error)]
pub enum BlockError {
    /// Too few blocks are usable.
    #[error("file system full")]
    Full,
    /// This block is not of its format; 1 where a score is not held.
    #[error("damaged block {0}")]
    Damaged(u32),
    /// The main device failed.
    #[error("main: {0}")]
    Fault(DiskFault),
    /// The arena's device failed.
    #[error("arena: {0}")]
    Arena(DiskFault),
    /// There is no memory.
    #[error("no memory")]
    Memory,
}

impl From<fo_base::Memory> for BlockError {
    ghost use Rattle.std.specs.Prelude.{◌≡◌};
    ghost use Rattle.fo_ports.specs.declared.error.BlockError.TheVariants.{Memory};

    ghost from_gives = { λ _ e. e ≡ Memory };

    fn from(_: fo_base::Memory) -> BlockError {
        BlockError::Memory
    }
}
