//! Why a tree was not checked to its end.
ghost use Rattle.std.specs.Prelude.{◌≡◌};

use fo_disk::Failed;
use std::alloc::{AllocError, AllocFailed};
use thiserror::Error;

/// Why a tree was not checked to its end.
#[derive(Clone, Copy, Debug, PartialEq, Eq, Error)]
pub enum TreeError {
    /// A block or a label breaks rule 4, the lowest that a tree can break.
    #[error("unsound S4 at block {0}")]
    Label(u32),
    /// A block could not be read.
    #[error("read failed")]
    Read,
    /// There is no memory.
    #[error("no memory")]
    Memory,
}

impl From<AllocError> for TreeError {
    ghost use Rattle.fo_check_labels.specs.declared.error.TreeError.TheVariants.{Memory as NoMemory};

    ghost from_gives = { λ _ e. e ≡ NoMemory };

    fn from(_: AllocError) -> TreeError {
        TreeError::Memory
    }
}

impl<T: Drop> From<AllocFailed<T>> for TreeError {
    ghost use Rattle.fo_check_labels.specs.declared.error.TreeError.TheVariants.{Memory as NoMemory};

    ghost from_gives = { λ _ e. e ≡ NoMemory };

    fn from(_: AllocFailed<T>) -> TreeError {
        TreeError::Memory
    }
}

impl From<Failed> for TreeError {
    ghost use Rattle.fo_check_labels.specs.declared.error.TreeError.TheVariants.{Read as ReadFault};

    ghost from_gives = { λ _ e. e ≡ ReadFault };

    fn from(_: Failed) -> TreeError {
        TreeError::Read
    }
}
