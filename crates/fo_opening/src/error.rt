//! Why a device is not opened.
use fo_base::Memory;
use fo_disk::{Disk, DiskFault};
use thiserror::Error;

/// Why a device is not opened.
#[derive(Clone, Copy, Debug, PartialEq, Eq, Error)]
pub enum Why {
    /// It has below 64 or above 2^20 blocks.
    #[error("size of the main device out of range")]
    Size,
    /// Block 0 is no header of a device of so many blocks.
    #[error("no header")]
    Header,
    /// Block 1 is no super block, or its epochs are out of order, or its root is no data block.
    #[error("no super block")]
    Super,
    /// This block of the label table is not of its format.
    #[error("block {0} is no block of labels")]
    Label(u32),
    /// The label of the root says that it may be given out.
    #[error("the root may be given out")]
    Root,
    /// The device failed.
    #[error("main device: {0}")]
    Fault(DiskFault),
    /// There is no memory.
    #[error("no memory")]
    Memory,
}

/// A device that is not opened, and why.
#[derive(Drop)]
pub struct Refused<D: Disk> {
    pub main: D,
    pub why: Why,
}

impl From<Memory> for Why {
    ghost use Rattle.std.specs.Prelude.{◌≡◌};
    ghost use Rattle.fo_opening.specs.declared.error.Why.TheVariants.{Memory as NoMemory};

    ghost from_gives = { λ _ e. e ≡ NoMemory };

    fn from(_: Memory) -> Why {
        Why::Memory
    }
}
