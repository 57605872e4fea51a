//! What is answered at the console.
use fo_world::{Info, Name};

/// An answer to a command.
#[derive(Debug, Drop)]
pub enum Answer {
    Done,
    /// The epoch of the snapshot, and whether it is to be archived.
    Snapped {
        epoch: u32,
        archive: bool,
    },
    Epochs {
        low: u32,
        high: u32,
    },
    /// The usable blocks of all data blocks, and the used places of all places of the arena.
    Space {
        usable: u32,
        blocks: u32,
        used: u32,
        places: u32,
    },
    /// The used and the leaked blocks of a sound image.
    Checked {
        used: u32,
        leaked: u32,
    },
    Stat(Info),
    /// The lines of the table of users.
    Users(Vec<u8>),
    /// Why the command is refused.
    Error(Name),
}
