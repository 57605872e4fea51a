//! What names a file on the wire.

/// A file's type, its version and its number (intro(5)).
#[derive(Clone, Copy, Debug, PartialEq, Eq)]
pub struct Qid {
    pub kind: u8,
    pub vers: u32,
    pub path: u64,
}
