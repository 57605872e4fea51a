//! Whether two answers are the same.
use fo_base::Memory;
use fo_world::{FileError, Info, Place, View};
use std::alloc::{AllocFailed, Global};
use std::fmt::Debug;

/// What came of a call on both.
#[derive(Drop)]
pub enum Verdict {
    /// Both answered the same.
    Same,
    /// Both refused it by the same rule.
    Refused,
    /// A device of the files failed, or there was no memory.
    Failed,
    /// The files were full.
    Full,
    /// Both made a file.
    Made(Spot),
    /// The answers differ.
    Differs(String),
}

/// A file's place in the files, and in the plain ones.
#[derive(Drop)]
pub struct Spot {
    pub files: Place,
    pub plain: Place,
    pub directory: bool,
}

impl Spot {
    /// The root of a view in both.
    pub fn root(alloc: Global, view: View) -> Spot {
        Spot {
            files: Place::root(alloc, view),
            plain: Place::root(alloc, view),
            directory: true,
        }
    }

    /// The file's numbers.
    pub fn numbers(&self) -> (u64, u64) {
        (number(&self.files), number(&self.plain))
    }
}

/// The last number of a trail; 0 of a root.
fn number(at: &Place) -> u64 {
    match at.trail.as_slice().last() {
        Some(number) => u64::from(*number),
        None => 0,
    }
}

/// Why a run ends.
#[derive(Drop)]
pub enum Stop {
    /// There is no memory.
    Memory,
    /// A disk could not be settled, or not be opened.
    Lost,
    /// The answers to a call differ.
    Differs(String),
}

impl From<Memory> for Stop {
    fn from(_: Memory) -> Stop {
        Stop::Memory
    }
}

impl<T: Drop> From<AllocFailed<T>> for Stop {
    fn from(_: AllocFailed<T>) -> Stop {
        Stop::Memory
    }
}

/// File numbers of the files, with those of the plain ones.
pub type Pairs = Vec<(u64, u64)>;

/// An answer that can be compared with that of the plain files. File numbers may differ, in pairs.
pub trait Answer {
    fn is_same(&self, plain: &Self, pairs: &Pairs) -> bool;
}

impl Answer for () {
    fn is_same(&self, plain: &Self, pairs: &Pairs) -> bool {
        true
    }
}

impl Answer for usize {
    fn is_same(&self, plain: &Self, pairs: &Pairs) -> bool {
        *self == *plain
    }
}

impl Answer for Info {
    fn is_same(&self, plain: &Self, pairs: &Pairs) -> bool {
        is_like(self, plain) && is_pair(self.path, plain.path, pairs)
    }
}

impl Answer for Option<Info> {
    fn is_same(&self, plain: &Self, pairs: &Pairs) -> bool {
        match (self, plain) {
            (None, None) => true,
            (Some(told), Some(plain)) => told.is_same(plain, pairs),
            _ => false,
        }
    }
}

/// Whether these numbers stand for each other.
fn is_pair(number: u64, plain: u64, pairs: &Pairs) -> bool {
    pairs.iter().any(|p| p.0 == number && p.1 == plain)
}

/// Whether the same is told, but for the number.
pub fn is_like(told: &Info, plain: &Info) -> bool {
    told.name.as_slice() == plain.name.as_slice()
        && told.vers == plain.vers
        && told.mode == plain.mode
        && told.atime == plain.atime
        && told.mtime == plain.mtime
        && told.length == plain.length
        && told.uid.as_slice() == plain.uid.as_slice()
        && told.gid.as_slice() == plain.gid.as_slice()
        && told.muid.as_slice() == plain.muid.as_slice()
        && told.place.view == plain.place.view
        && told.place.trail.as_slice().len() == plain.place.trail.as_slice().len()
}

/// Whether two refusals are the same.
fn is_error(why: &FileError, plain: &FileError) -> bool {
    why.text().as_slice() == plain.text().as_slice()
}

/// What came of a call that the plain files are not asked: a device failed, there was no memory, or the files were full.
pub fn apart<T>(told: &Result<T, FileError>) -> Option<Verdict> {
    match told {
        Err(FileError::Full) => Some(Verdict::Full),
        Err(
            FileError::MainRead
            | FileError::MainWrite
            | FileError::MainSync
            | FileError::ArenaRead
            | FileError::ArenaWrite
            | FileError::ArenaSync
            | FileError::Memory,
        ) => Some(Verdict::Failed),
        _ => None,
    }
}

/// Both answers, which differ.
pub fn differs<T: Debug>(alloc: Global, told: &T, plain: &T) -> Result<Verdict, Memory> {
    let text = format!(in alloc; "{told:?}, and the plain files {plain:?}")?;
    Ok(Verdict::Differs(text))
}

/// Compares two answers.
pub fn judge<T: Answer + Debug>(
    alloc: Global,
    told: &Result<T, FileError>,
    plain: &Result<T, FileError>,
    pairs: &Pairs,
) -> Result<Verdict, Memory> {
    match (told, plain) {
        (Ok(one), Ok(other)) => {
            if one.is_same(other, pairs) {
                return Ok(Verdict::Same);
            }
        }
        (Err(one), Err(other)) => {
            if is_error(one, other) {
                return Ok(Verdict::Refused);
            }
        }
        _ => {}
    }
    differs(alloc, told, plain)
}
