//! Why a file doesn't get a length.
use fo_ports::BlockError;
use thiserror::Error;

/// A file doesn't get a length.
#[derive(Clone, Copy, Debug, PartialEq, Eq, Error)]
pub enum CutError {
    /// It is more than a file may have.
    #[error("file too big")]
    TooBig,
    /// A call on blocks was refused.
    #[error("{0}")]
    Blocks(BlockError),
}
