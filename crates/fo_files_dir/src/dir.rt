//! Files whose entries stand in a block that was owned.

/// A directory whose two entries stand in slots `slot` and `slot + 1` of block `at`: its number, and the rank of the leaf of entries (of a root
/// block that of the leaf for which it stands). Its entries have leaves 32 ranks below, its records 24.
#[derive(Clone, Copy, Debug)]
pub struct DirAt {
    pub at: u32,
    pub slot: u32,
    pub number: u32,
    pub rank: u32,
}

/// The same of a file that is no directory: its data has leaves 8 ranks below.
#[derive(Clone, Copy, Debug)]
pub struct FileAt {
    pub at: u32,
    pub slot: u32,
    pub number: u32,
    pub rank: u32,
}
