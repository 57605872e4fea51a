//! What an archive holds beside blocks of data, pointers and records.
ghost use Rattle.std.specs.Prelude.{◌≡◌};

use fo_image::{Record, Score};
use std::alloc::AllocError;
use thiserror::Error;

/// The bytes are not of the archived form that was asked for.
#[derive(Clone, Copy, Debug, PartialEq, Eq, Error)]
#[error("not an archived form")]
pub struct BadVac;

/// The score of the empty block, the SHA-1 of no bytes (FIPS 180-4): in an archive it stands for a nil pointer.
pub const EMPTY: Score = Score([
    0xda, 0x39, 0xa3, 0xee, 0x5e, 0x6b, 0x4b, 0x0d, 0x32, 0x55, 0xbf, 0xef, 0x95, 0x60, 0x18, 0x90,
    0xaf, 0xd8, 0x07, 0x09,
]);

/// A source of bytes in an archive: the tree of blocks below `score`, of `depth` levels of pointer blocks, with `size` bytes.
#[derive(Clone, Copy, Debug, PartialEq, Eq)]
pub struct VacEntry {
    pub generation: u32,
    pub active: bool,
    pub dir: bool,
    pub depth: u8,
    pub size: u64,
    pub score: Score,
}

/// The root of an archive: the epoch and the time of its snapshot, its top block, and the root of the archive before it.
#[derive(Clone, Copy, Debug, PartialEq, Eq)]
pub struct VacRoot {
    pub epoch: u32,
    pub time: u32,
    pub top: Score,
    pub prev: Option<Score>,
}

/// The top block of an archive: the two sources of the root directory, and the root directory's record.
#[derive(Debug, Drop)]
pub struct VacTop {
    pub entries: VacEntry,
    pub meta: VacEntry,
    pub own: Record,
}

/// Why no top block was read.
#[derive(Clone, Copy, Debug, PartialEq, Eq, Error)]
pub enum VacTopError {
    #[error("not an archived form")]
    Bad,
    #[error("no memory")]
    Memory,
}

impl From<AllocError> for VacTopError {
    ghost use Rattle.fo_vacput.specs.declared.types.VacTopError.TheVariants.{Memory};

    ghost from_gives = { λ _ e. e ≡ Memory };

    fn from(_: AllocError) -> VacTopError {
        VacTopError::Memory
    }
}

/// What the arena leaves out at the end of a block.
#[derive(Clone, Copy, Debug, PartialEq, Eq)]
pub enum Tail {
    /// Zeros, of data, entries and top blocks.
    Zeros,
    /// Scores of the empty block, of pointer blocks.
    Scores,
    /// A root is stored whole.
    Nothing,
}
