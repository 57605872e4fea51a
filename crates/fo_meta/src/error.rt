//! Why a call of a meta leaf was refused.
use thiserror::Error;

#[derive(Clone, Copy, Debug, PartialEq, Eq, Error)]
pub enum MetaError {
    /// The records of the leaf would take more than 8188 bytes.
    #[error("no room in the leaf")]
    NoRoom,
    #[error("no memory")]
    Memory,
}
