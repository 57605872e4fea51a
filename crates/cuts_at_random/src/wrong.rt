//! What may be wrong.
use crate::names::Spot;

/// What is wrong.
#[derive(Clone, Copy)]
pub enum Wrong {
    /// The disks of a round can't be made.
    Lost,
    /// A step was not answered as the rules say.
    Answer,
    /// An image doesn't pass the check.
    Unsound,
    /// An image doesn't open.
    Closed,
    /// A name that was untouched has another file, or none, or one though it had none.
    Name(Spot),
    /// A file that was untouched has other bytes.
    Bytes(Spot),
    /// A name stands twice in its directory, or its file can't be removed.
    Twice(Spot),
    /// An image takes no new file.
    Fixed,
    /// An image doesn't pass the check after a new file was made in it.
    After,
}

impl Wrong {
    /// What it is in words.
    pub fn text(self) -> &'static str {
        match self {
            Wrong::Lost => "no disks",
            Wrong::Answer => "answered against the rules",
            Wrong::Unsound => "unsound",
            Wrong::Closed => "doesn't open",
            Wrong::Name(_) => "untouched name",
            Wrong::Bytes(_) => "untouched bytes",
            Wrong::Twice(_) => "name twice",
            Wrong::Fixed => "takes no new file",
            Wrong::After => "unsound after a new file",
        }
    }

    /// The name that it is about.
    pub fn spot(self) -> Option<Spot> {
        match self {
            Wrong::Name(at) | Wrong::Bytes(at) | Wrong::Twice(at) => Some(at),
            _ => None,
        }
    }
}
