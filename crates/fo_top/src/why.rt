//! How a run ends.
ghost use Rattle.std.specs.Prelude.{◌≡◌};
ghost use Rattle.fo_top.specs.Ending.{failed_why, finish_why, first_why};

use crate::text::{bad_input, fixed, unsound};
use arrayvec::ArrayString;
use fo_script::ScriptEnd;
use fo_talk::LinkEnd;
use fo_tools::ToolEnd;
use fo_world::FileError;

/// How a run ended.
#[derive(Clone, Copy, Debug, PartialEq, Eq)]
pub enum Why {
    /// The input was read to its end, or the tool did its work and printed its line.
    Ended,
    /// The words are not of the program's grammar.
    Usage,
    /// The main device has no header or no super block.
    NotFossil,
    /// The lowest rule that is broken, and a block at which it is broken.
    Unsound { rule: u8, block: u32 },
    MainRead,
    /// A write or a sync failed.
    MainWrite,
    ArenaRead,
    /// A write or a sync failed.
    ArenaWrite,
    /// The input failed.
    Input,
    /// The output failed.
    Output,
    /// The main device has below 64 or above 2^20 blocks, or the arena below 16 or above 2^20.
    Size,
    /// There is no memory.
    Memory,
    /// Behind so many bytes of the input stands no message.
    BadInput(u64),
    /// Block 0 of the arena is not of its format.
    NotArena,
    /// A script went on past the turns that a run has.
    Spent,
    /// The image has a part that is not built yet.
    NotBuilt,
}

impl From<LinkEnd> for Why {
    ghost use Rattle.fo_top.specs.Ending.{why_of};

    ghost from_gives = { λ end why. why ≡ why_of end };

    fn from(end: LinkEnd) -> Why {
        match end {
            LinkEnd::End => Why::Ended,
            LinkEnd::BadMessage(place) => Why::BadInput(place),
            LinkEnd::ReadFault => Why::Input,
            LinkEnd::WriteFault => Why::Output,
            LinkEnd::Memory => Why::Memory,
        }
    }
}

impl From<ScriptEnd> for Why {
    ghost use Rattle.fo_top.specs.Ending.{script_why};

    ghost from_gives = { λ end why. why ≡ script_why end };

    fn from(end: ScriptEnd) -> Why {
        match end {
            ScriptEnd::End => Why::Ended,
            ScriptEnd::BadLine(place) => Why::BadInput(place),
            ScriptEnd::ReadFault => Why::Input,
            ScriptEnd::WriteFault => Why::Output,
            ScriptEnd::Spent => Why::Spent,
            ScriptEnd::Memory => Why::Memory,
        }
    }
}

impl From<ToolEnd> for Why {
    ghost use Rattle.fo_top.specs.Ending.{tool_why};

    ghost from_gives = { λ end why. why ≡ tool_why end };

    fn from(end: ToolEnd) -> Why {
        match end {
            ToolEnd::Ended => Why::Ended,
            ToolEnd::NotFossil => Why::NotFossil,
            ToolEnd::Unsound { rule, block } => Why::Unsound { rule, block },
            ToolEnd::MainRead => Why::MainRead,
            ToolEnd::MainWrite => Why::MainWrite,
            ToolEnd::ArenaRead => Why::ArenaRead,
            ToolEnd::ArenaWrite => Why::ArenaWrite,
            ToolEnd::Output => Why::Output,
            ToolEnd::Size => Why::Size,
            ToolEnd::Memory => Why::Memory,
            ToolEnd::NotArena => Why::NotArena,
            ToolEnd::NotBuilt => Why::NotBuilt,
        }
    }
}

/// Why the last settling failed.
fn failed_why(failed: &FileError) -> Why
    ensures { result ≡ failed_why failed.now }
{
    match failed {
        FileError::MainRead => Why::MainRead,
        FileError::MainWrite | FileError::MainSync => Why::MainWrite,
        _ => Why::Memory,
    }
}

/// Why the last settling failed, if it did.
fn finish_why(failed: &Option<FileError>) -> Why
    ensures { result ≡ finish_why failed.now }
{
    match failed {
        None => Why::Ended,
        Some(failed) => failed_why(failed),
    }
}

/// The first cause: what ended the requests, but for the end of their input; else why the last settling failed, if it did.
pub(crate) fn first_why(how: Why, failed: Option<FileError>) -> Why
    ensures { result ≡ first_why how failed }
{
    match how {
        Why::Ended => finish_why(&failed),
        _ => how,
    }
}

impl Why {
    ghost use Rattle.fo_top.specs.Ending.{status_of};
    ghost use Rattle.fo_top.specs.Texts.{text_of};

    /// The status that the program ends with.
    pub fn status(self) -> u8
        ensures { result ≡ status_of self }
    {
        match self {
            Why::Ended => 0,
            Why::Usage => 1,
            Why::NotFossil => 2,
            Why::Unsound { .. } => 3,
            Why::MainRead => 4,
            Why::MainWrite => 5,
            Why::ArenaRead => 6,
            Why::ArenaWrite => 7,
            Why::Input => 8,
            Why::Output => 9,
            Why::Size => 10,
            Why::Memory => 11,
            Why::BadInput(_) => 13,
            Why::NotArena => 14,
            Why::Spent => 15,
            Why::NotBuilt => 16,
        }
    }

    /// The text that standard error gets of it.
    pub fn text(self) -> ArrayString<64>
        ensures { result.bytes ≡ text_of self }
    {
        match self {
            Why::Ended => fixed("ended"),
            Why::Usage => fixed("usage: fossil command main arena [options]"),
            Why::NotFossil => fixed("not a fossil image"),
            Why::Unsound { rule, block } => unsound(rule, block),
            Why::MainRead => fixed("read fault on main"),
            Why::MainWrite => fixed("write fault on main"),
            Why::ArenaRead => fixed("read fault on arena"),
            Why::ArenaWrite => fixed("write fault on arena"),
            Why::Input => fixed("read fault on input"),
            Why::Output => fixed("write fault on output"),
            Why::Size => fixed("size of a device out of range"),
            Why::Memory => fixed("no memory"),
            Why::BadInput(place) => bad_input(place),
            Why::NotArena => fixed("not an arena"),
            Why::Spent => fixed("turns spent"),
            Why::NotBuilt => fixed("image not built yet"),
        }
    }
}
