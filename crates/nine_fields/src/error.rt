//! Why something was not read.
use fo_base::Memory;
use std::alloc::{AllocError, AllocFailed};
use thiserror::Error;

/// The bytes do not begin with what was asked for.
#[derive(Clone, Copy, Debug, PartialEq, Eq, Error)]
#[error("malformed field")]
pub struct Malformed;

/// Why something that takes memory was not read.
#[derive(Clone, Copy, Debug, PartialEq, Eq, Error)]
pub enum ReadError {
    #[error("no memory")]
    Memory,
    #[error("malformed field")]
    Malformed,
}

impl From<Malformed> for ReadError {
    ghost use Rattle.nine_fields.specs.declared.error.ReadError.TheVariants as errors;
    ghost use Rattle.std.specs.Prelude.{◌≡◌};

    ghost from_gives = { λ _ e. e ≡ errors.Malformed };

    fn from(_: Malformed) -> ReadError {
        ReadError::Malformed
    }
}

impl From<Memory> for ReadError {
    ghost use Rattle.nine_fields.specs.declared.error.ReadError.TheVariants as errors;
    ghost use Rattle.std.specs.Prelude.{◌≡◌};

    ghost from_gives = { λ _ e. e ≡ errors.Memory };

    fn from(_: Memory) -> ReadError {
        ReadError::Memory
    }
}

impl From<AllocError> for ReadError {
    ghost use Rattle.nine_fields.specs.declared.error.ReadError.TheVariants as errors;
    ghost use Rattle.std.specs.Prelude.{◌≡◌};

    ghost from_gives = { λ _ e. e ≡ errors.Memory };

    fn from(_: AllocError) -> ReadError {
        ReadError::Memory
    }
}

impl<T: Drop> From<AllocFailed<T>> for ReadError {
    ghost use Rattle.nine_fields.specs.declared.error.ReadError.TheVariants as errors;
    ghost use Rattle.std.specs.Prelude.{◌≡◌};

    ghost from_gives = { λ _ e. e ≡ errors.Memory };

    fn from(_: AllocFailed<T>) -> ReadError {
        ReadError::Memory
    }
}
