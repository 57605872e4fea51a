//! How a tool ends.
ghost use Rattle.std.specs.Prelude.{◌≡◌};
ghost use Rattle.fo_tools.specs.Ends.{end_of_main, end_of_arena};

use fo_check::CheckError;
use fo_disk::DiskFault;
use fo_format::FormatError;

/// How a tool ends.
#[derive(Clone, Copy, Debug, PartialEq, Eq)]
pub enum ToolEnd {
    /// All is done, and the line is printed.
    Ended,
    /// The main device has no header or no super block.
    NotFossil,
    /// The lowest rule that is broken, and a block at which it is broken.
    Unsound { rule: u8, block: u32 },
    MainRead,
    /// A write or a sync failed.
    MainWrite,
    ArenaRead,
    /// A write or a sync failed.
    ArenaWrite,
    Output,
    /// The main device has below 64 or above 2^20 blocks, or the arena below 16 or above 2^20.
    Size,
    Memory,
    /// Block 0 of the arena is not of its format.
    NotArena,
    /// The image has a part that is not built yet.
    NotBuilt,
}

/// A fault of the main device.
fn main_fault(fault: DiskFault) -> ToolEnd
    ensures { result ≡ end_of_main fault }
{
    match fault {
        DiskFault::Read => ToolEnd::MainRead,
        DiskFault::Write | DiskFault::Sync => ToolEnd::MainWrite,
    }
}

/// A fault of the arena.
fn arena_fault(fault: DiskFault) -> ToolEnd
    ensures { result ≡ end_of_arena fault }
{
    match fault {
        DiskFault::Read => ToolEnd::ArenaRead,
        DiskFault::Write | DiskFault::Sync => ToolEnd::ArenaWrite,
    }
}

impl From<FormatError> for ToolEnd {
    ghost use Rattle.std.specs.Prelude.{◌≡◌};
    ghost use Rattle.fo_tools.specs.Ends.{end_of_format};

    ghost from_gives = { λ e how. how ≡ end_of_format e };

    fn from(e: FormatError) -> ToolEnd {
        match e {
            FormatError::Size => ToolEnd::Size,
            FormatError::Main(fault) => main_fault(fault),
            FormatError::Arena(fault) => arena_fault(fault),
            FormatError::Memory => ToolEnd::Memory,
        }
    }
}

impl From<CheckError> for ToolEnd {
    ghost use Rattle.std.specs.Prelude.{◌≡◌};
    ghost use Rattle.fo_tools.specs.Ends.{end_of_check};

    ghost from_gives = { λ e how. how ≡ end_of_check e };

    fn from(e: CheckError) -> ToolEnd {
        match e {
            CheckError::Size => ToolEnd::Size,
            CheckError::NotArena => ToolEnd::NotArena,
            CheckError::NotBuilt => ToolEnd::NotBuilt,
            CheckError::Unsound { rule: 1, .. } => ToolEnd::NotFossil,
            CheckError::Unsound { rule, block } => ToolEnd::Unsound { rule, block },
            CheckError::Main(fault) => main_fault(fault),
            CheckError::Arena(fault) => arena_fault(fault),
            CheckError::Memory => ToolEnd::Memory,
        }
    }
}
