//! A disk in memory that settles each write at once and never fails.
use crate::memory::Version;

/// A disk in memory that settles each write at once and never fails. It keeps no record of its moments.
#[derive(Drop)]
pub struct SureDisk {
    pub(crate) blocks: Vec<Version>,
    pub(crate) calls: u64,
}
