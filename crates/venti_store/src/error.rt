//! Why an arena refuses a call.
use fo_base::Memory;
use fo_disk::DiskFault;
use thiserror::Error;

/// Why a block was not put or got.
#[derive(Debug, Drop, Error)]
pub enum ArenaError {
    /// No block is held under this score and kind.
    #[error("no such block")]
    Absent,
    /// The block that is held under the score and kind, and the other one that was to be put.
    #[error("score collision")]
    Collision(Vec<u8>, Vec<u8>),
    /// No place is left.
    #[error("arena full")]
    ArenaFull,
    /// The block's score begins with sixteen zero bytes, as no score in an archive may.
    #[error("bad score")]
    BadScore,
    /// This block of the device doesn't hash to the score of its place.
    #[error("damaged block {0}")]
    Damaged(u32),
    /// A block of the device could not be read.
    #[error("arena read fault")]
    ArenaRead,
    /// A block of the device could not be written.
    #[error("arena write fault")]
    ArenaWrite,
    /// What was written could not be settled.
    #[error("arena sync fault")]
    ArenaSync,
    /// There is no memory.
    #[error("no memory")]
    Memory,
}

/// Why a device was not opened as an arena.
#[derive(Clone, Copy, Debug, PartialEq, Eq, Error)]
pub enum ArenaWhy {
    /// The device has below 16 or above 2^20 blocks, or block 0 or a line of a used place is not of its format.
    #[error("not an arena")]
    NotArena,
    /// The blocks could not be counted, or a block could not be read.
    #[error("arena read fault")]
    ArenaRead,
    /// There is no memory.
    #[error("no memory")]
    Memory,
}

/// A device that was not opened as an arena, with the cause.
#[derive(Drop)]
pub struct ArenaOpen<A> {
    pub why: ArenaWhy,
    pub device: A,
}
