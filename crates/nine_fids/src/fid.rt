//! Fids.
use crate::mode::Access;
use fo_world::{Name, Place};

/// How a fid is open.
#[derive(Debug, Drop)]
pub struct Opened {
    pub access: Access,
    /// Whether the file is removed when the fid is clunked.
    pub remove: bool,
    /// Whether the fid holds the file for exclusive use.
    pub exclusive: bool,
    /// Where the next read of a directory goes on: the sum of the bytes that were given.
    pub offset: u64,
    /// The name of the last file that was given.
    pub last: Option<Name>,
}

/// A number by which a client names a file: the user who attached, where the file is, and how it is open.
#[derive(Debug, Drop)]
pub struct Fid {
    pub number: u32,
    pub user: Name,
    pub place: Place,
    pub opened: Option<Opened>,
}
