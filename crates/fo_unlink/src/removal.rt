//! What is asked of the queue, and what it answers.
use fo_image::Kind;

/// A block that the active tree holds no more. It is closed, alone or with all that is below it, at an epoch, once the
/// block that held it, `after`, is settled with its memory content.
#[derive(Clone, Copy, Debug, PartialEq, Eq)]
pub struct Removal {
    /// The address of the block.
    pub at: u32,
    /// What the block holds, with its level.
    pub kind: Kind,
    /// Whether all that is below the block is closed with it.
    pub whole: bool,
    /// The epoch at which the blocks are closed.
    pub epoch: u32,
    /// The address of the block that has to be settled first.
    pub after: u32,
}

/// What the queue has to say next.
#[derive(Clone, Copy, Debug, PartialEq, Eq)]
pub enum Step {
    /// This block is to be closed now, at the epoch of the first removal.
    Closes(u32),
    /// The next step needs the content of this block.
    Reads(u32),
    /// The block after which the first removal comes is not settled yet.
    Waits,
    /// No removal is left.
    Empty,
}
