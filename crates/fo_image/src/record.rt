//! What a directory says of a file, and the root block of a tree.
ghost use Rattle.std.specs.Prelude.{◌≡◌};

use crate::types::{Bad, Entry};
use fo_base::Bytes as Text;
use std::alloc::AllocError;
use thiserror::Error;

/// Why no record and no root block was read.
#[derive(Clone, Copy, Debug, PartialEq, Eq, Error)]
pub enum RecordError {
    #[error(transparent)]
    Bad(Bad),
    #[error("no memory")]
    Memory,
}

impl From<AllocError> for RecordError {
    ghost use Rattle.fo_image.specs.declared.record.RecordError.TheVariants.{Memory};

    ghost from_gives = { λ _ e. e ≡ Memory };

    fn from(_: AllocError) -> RecordError {
        RecordError::Memory
    }
}

impl From<Bad> for RecordError {
    ghost use Rattle.fo_image.specs.declared.record.RecordError.TheVariants.{Bad as BadBytes};

    ghost from_gives = { λ why e. e ≡ BadBytes why };

    fn from(why: Bad) -> RecordError {
        RecordError::Bad(why)
    }
}

/// What a directory says of a file: its name, its number, where its sources are (the slot pair and its generation),
/// and the fields of stat(5).
#[derive(Debug, Drop)]
pub struct Record {
    pub name: Text,
    pub number: u32,
    pub slot: u32,
    pub generation: u32,
    pub vers: u32,
    pub mode: u32,
    pub atime: u32,
    pub mtime: u32,
    pub uid: Text,
    pub gid: Text,
    pub muid: Text,
}

/// The root of a tree: its epoch, the time of the snapshot that made it, the epoch and the address of the root before
/// it or zeros, the two sources of the root directory, and the root directory's record.
#[derive(Debug, Drop)]
pub struct RootBlock {
    pub epoch: u32,
    pub time: u32,
    pub prev_epoch: u32,
    pub prev: u32,
    pub entries: Entry,
    pub meta: Entry,
    pub own: Record,
}
