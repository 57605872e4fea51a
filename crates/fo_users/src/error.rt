//! Why no table of users was read.
use fo_base::Memory;
use thiserror::Error;

/// Why no table of users was read.
#[derive(Clone, Copy, Debug, PartialEq, Eq, Error)]
pub enum UsersError {
    /// The bytes spell no table.
    #[error("bad users")]
    BadUsers,
    #[error("no memory")]
    Memory,
}

impl From<Memory> for UsersError {
    ghost use Rattle.std.specs.Prelude.{◌≡◌};
    ghost use Rattle.fo_users.specs.declared.error.UsersError.TheVariants.{Memory as NoMemory};

    ghost from_gives = { λ _ e. e ≡ NoMemory };

    fn from(_: Memory) -> UsersError {
        UsersError::Memory
    }
}
