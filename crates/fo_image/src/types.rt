//! What the blocks of the two devices hold, as values.
use thiserror::Error;

/// The bytes are not of the format that was asked for.
#[derive(Clone, Copy, Debug, PartialEq, Eq, Error)]
pub enum Bad {
    /// No header, or no head of an arena.
    #[error("not a header")]
    Header,
    /// No super block.
    #[error("not a super block")]
    Super,
    /// No label.
    #[error("not a label")]
    Label,
    /// No entry, record, root block or line of an arena's index.
    #[error("not an entry")]
    Entry,
}

/// Block 0 of the main device, which says how many blocks the device has.
#[derive(Clone, Copy, Debug, PartialEq, Eq)]
pub struct Header {
    pub blocks: u32,
}

/// A SHA-1 hash, by which a block of the arena is named.
#[derive(Clone, Copy, Debug, PartialEq, Eq)]
pub struct Score(pub [u8; 20]);

/// Whether a block is in use.
#[derive(Clone, Copy, Debug, PartialEq, Eq)]
pub enum State {
    /// It holds nothing.
    Free,
    /// The active tree holds it.
    Live,
    /// The active tree holds it no more from the closing epoch on.
    Closed,
}

/// What a block holds, with its level: leaves have level 0.
#[derive(Clone, Copy, Debug, PartialEq, Eq)]
pub enum Kind {
    /// A block of a file's data or of a directory's records.
    Data(u8),
    /// A block of a directory's entries.
    Dir(u8),
    /// The root block of a tree.
    Root,
}

/// What is known of one block: its state, what it holds, the source that it is part of, and the epochs in which it
/// was made and closed.
#[derive(Clone, Copy, Debug, PartialEq, Eq)]
pub struct Label {
    pub state: State,
    pub kind: Kind,
    pub tag: u32,
    pub epoch: u32,
    pub closing: u32,
}

/// Block 1 of the main device: the epochs that are kept, the root of the active tree, the limit below which file
/// numbers may have been given, the epoch that is to be archived or 0, and the score of the last archive.
#[derive(Clone, Copy, Debug, PartialEq, Eq)]
pub struct Super {
    pub version: u16,
    pub low: u32,
    pub high: u32,
    pub active: u32,
    pub numbers: u32,
    pub pending: u32,
    pub last: Option<Score>,
}

/// Where a block is: nowhere, at an address of the main device, or in the arena.
#[derive(Clone, Copy, Debug, PartialEq, Eq)]
pub enum Pointer {
    Nil,
    Local(u32),
    Score(Score),
}

/// A source of bytes: the tree of blocks below `top`, of `depth` levels of pointer blocks, with `size` bytes.
#[derive(Clone, Copy, Debug, PartialEq, Eq)]
pub struct Entry {
    pub generation: u32,
    pub active: bool,
    pub dir: bool,
    pub depth: u8,
    pub tag: u32,
    pub size: u64,
    pub top: Pointer,
}

/// Block 0 of the arena: how many blocks the device has, and how many places are in use.
#[derive(Clone, Copy, Debug, PartialEq, Eq)]
pub struct ArenaHead {
    pub blocks: u32,
    pub used: u32,
}

/// What the index of the arena says of one place: the score and the kind of its block, and how many bytes are stored.
#[derive(Clone, Copy, Debug, PartialEq, Eq)]
pub struct ArenaLine {
    pub score: Score,
    pub kind: u8,
    pub len: u16,
}
