//! Why a source doesn't get a length.
use fo_ports::BlockError;
use thiserror::Error;

/// A source doesn't get a length, or isn't trimmed.
#[derive(Clone, Copy, Debug, PartialEq, Eq, Error)]
pub enum LengthError {
    /// It is past the limit that the source was opened with.
    #[error("file too big")]
    TooBig,
    /// The source has the length that it had.
    #[error("{0}")]
    Refused(BlockError),
    /// The source has its new length, which is shorter; what stands behind its end stands there still.
    #[error("{0}")]
    Untrimmed(BlockError),
}
