//! Why a call on stat records did nothing.
use thiserror::Error;

/// Why no stat record was read.
#[derive(Clone, Copy, Debug, PartialEq, Eq, Error)]
pub enum StatError {
    /// The bytes are not exactly one stat record.
    #[error("bad stat")]
    BadStat,
    #[error("no memory")]
    Memory,
}

/// Why no records were cut off.
#[derive(Clone, Copy, Debug, PartialEq, Eq, Error)]
pub enum CutError {
    /// Not even the first record stands within the count.
    #[error("count too small")]
    TooSmall,
    #[error("no memory")]
    Memory,
}
