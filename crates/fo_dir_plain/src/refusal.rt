//! Why a call of a directory was refused.
use std::alloc::AllocError;
use thiserror::Error;

#[derive(Clone, Copy, Debug, PartialEq, Eq, Error)]
pub enum Refusal {
    /// No record has the name.
    #[error("no such name")]
    Absent,
    /// A record has the name already.
    #[error("the name is there")]
    Exists,
    /// Each pair is a record's.
    #[error("directory full")]
    Full,
    #[error("no memory")]
    Memory,
}
