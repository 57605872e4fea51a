//! An archive that was found, and why none was.
use fo_vacput::{VacRoot, VacTop};
use thiserror::Error;
use venti_store::ArenaError;

/// The root of an archive, and its top block.
#[derive(Debug, Drop)]
pub struct Archived {
    pub root: VacRoot,
    pub top: VacTop,
}

/// Why no archive was found.
#[derive(Debug, Drop, Error)]
pub enum VacError {
    /// The arena refused a block. `Absent` is said of the root alone.
    #[error(transparent)]
    Arena(ArenaError),
    /// The root is not of its format, or its top block is not held or not of its format.
    #[error("not an archive")]
    BadVac,
}
