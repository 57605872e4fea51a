//! The numbers of errors.
ghost use Rattle.std.specs.Prelude.{◌≡◌};
ghost use Rattle.fo_script_line.specs.Number.{fault_number};

use fo_world::FileError;

/// The number by which an answer names an error.
pub fn fault_number(error: &FileError) -> u8
    ensures { result ≡ fault_number error.now }
{
    match error {
        FileError::TooBig => 7,
        FileError::Exists => 8,
        FileError::Absent => 9,
        FileError::NotEmpty => 10,
        FileError::TooDeep => 11,
        FileError::Full => 12,
        FileError::NoNumbers => 13,
        FileError::NotDir => 23,
        FileError::IsDir => 24,
        FileError::ReadOnly => 25,
        FileError::Halted => 26,
        FileError::Gone => 27,
        FileError::DirFull => 28,
        FileError::MainRead => 30,
        FileError::MainWrite => 31,
        FileError::MainSync => 32,
        FileError::ArenaRead => 33,
        FileError::ArenaWrite => 34,
        FileError::ArenaSync => 35,
        FileError::Damaged(_) => 36,
        FileError::Memory => 50,
    }
}
