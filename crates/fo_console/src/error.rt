//! Why no command was read.
use fo_base::Memory;
use thiserror::Error;

/// Why no command was read.
#[derive(Clone, Copy, Debug, PartialEq, Eq, Error)]
pub enum LineError {
    /// The bytes are no command.
    #[error("bad command")]
    BadLine,
    #[error("no memory")]
    Memory,
}

impl From<Memory> for LineError {
    ghost use Rattle.std.specs.Prelude.{◌≡◌};
    ghost use Rattle.fo_console.specs.declared.error.LineError.TheVariants.{Memory as NoMemory};

    ghost from_gives = { λ _ e. e ≡ NoMemory };

    fn from(_: Memory) -> LineError {
        LineError::Memory
    }
}
