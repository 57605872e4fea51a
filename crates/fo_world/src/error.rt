//! Why a call on files is refused.
use crate::text::ShortText;
use std::alloc::{AllocError, AllocFailed};
use thiserror::Error;

/// Why a call on files is refused.
#[derive(Debug, Drop, Error)]
pub enum FileError {
    #[error("file too big")]
    TooBig,
    #[error("file exists")]
    Exists,
    #[error("file does not exist")]
    Absent,
    #[error("directory not empty")]
    NotEmpty,
    #[error("too deep")]
    TooDeep,
    #[error("file system full")]
    Full,
    #[error("no file numbers left")]
    NoNumbers,
    #[error("not a directory")]
    NotDir,
    #[error("is a directory")]
    IsDir,
    #[error("read only")]
    ReadOnly,
    #[error("halted")]
    Halted,
    #[error("file is gone")]
    Gone,
    #[error("directory full")]
    DirFull,
    #[error("main read fault")]
    MainRead,
    #[error("main write fault")]
    MainWrite,
    #[error("main sync fault")]
    MainSync,
    #[error("arena read fault")]
    ArenaRead,
    #[error("arena write fault")]
    ArenaWrite,
    #[error("arena sync fault")]
    ArenaSync,
    #[error("damaged block {0}")]
    Damaged(u32),
    #[error("no memory")]
    Memory,
}

impl From<AllocError> for FileError {
    ghost use Rattle.std.specs.Prelude.{◌≡◌};
    ghost use Rattle.fo_world.specs.declared.error.FileError.TheVariants.{Memory};

    ghost from_gives = { λ _ e. e ≡ Memory };

    fn from(_: AllocError) -> FileError {
        FileError::Memory
    }
}

impl<T: Drop> From<AllocFailed<T>> for FileError {
    ghost use Rattle.std.specs.Prelude.{◌≡◌};
    ghost use Rattle.fo_world.specs.declared.error.FileError.TheVariants.{Memory};

    ghost from_gives = { λ _ e. e ≡ Memory };

    fn from(_: AllocFailed<T>) -> FileError {
        FileError::Memory
    }
}

impl FileError {
    ghost use Rattle.std.specs.Prelude.{◌≡◌};
    ghost use Rattle.fo_world.specs.Texts.{error_text};

    /// The text by which the refusal is told, as in an Rerror. It takes no memory.
    pub fn text(&self) -> ShortText
        ensures { result ≡ error_text self.now }
    {
        let mut text = ShortText::new();
        match self {
            FileError::TooBig => text.append(b"file too big"),
            FileError::Exists => text.append(b"file exists"),
            FileError::Absent => text.append(b"file does not exist"),
            FileError::NotEmpty => text.append(b"directory not empty"),
            FileError::TooDeep => text.append(b"too deep"),
            FileError::Full => text.append(b"file system full"),
            FileError::NoNumbers => text.append(b"no file numbers left"),
            FileError::NotDir => text.append(b"not a directory"),
            FileError::IsDir => text.append(b"is a directory"),
            FileError::ReadOnly => text.append(b"read only"),
            FileError::Halted => text.append(b"halted"),
            FileError::Gone => text.append(b"file is gone"),
            FileError::DirFull => text.append(b"directory full"),
            FileError::MainRead => text.append(b"main read fault"),
            FileError::MainWrite => text.append(b"main write fault"),
            FileError::MainSync => text.append(b"main sync fault"),
            FileError::ArenaRead => text.append(b"arena read fault"),
            FileError::ArenaWrite => text.append(b"arena write fault"),
            FileError::ArenaSync => text.append(b"arena sync fault"),
            FileError::Damaged(block) => {
                text.append(b"damaged block ");
                text.append_decimal(*block);
            }
            FileError::Memory => text.append(b"no memory"),
        }
        text
    }
}
