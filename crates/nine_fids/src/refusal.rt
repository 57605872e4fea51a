//! Why a request is refused.
ghost use Rattle.std.specs.Prelude.{◌≡◌};
ghost use Rattle.fo_world.specs.Texts.{error_text};
ghost use Rattle.fo_world.specs.declared.error.FileError.TheVariants as failure;
ghost use Rattle.nine_fids.specs.Refusing.{is_failure};
ghost use Rattle.nine_fids.specs.declared.refusal.Refusal.TheVariants.{File};

use fo_base::Memory;
use fo_world::FileError;
use nine_wire::{Ename, Reply};
use std::alloc::{AllocError, AllocFailed};
use thiserror::Error;

/// Why a request is refused, with the text of its Rerror (error(5) of the Plan 9 manual).
#[derive(Debug, Drop, Error)]
pub enum Refusal {
    #[error("no version")]
    NoVersion,
    #[error("no authentication here")]
    NoAuthentication,
    #[error("fid in use")]
    FidInUse,
    #[error("too many fids")]
    TooManyFids,
    #[error("unknown tree")]
    UnknownTree,
    #[error("unknown fid")]
    UnknownFid,
    #[error("too many names")]
    TooManyNames,
    #[error("fid is open")]
    FidIsOpen,
    #[error("fid is not open")]
    FidIsNotOpen,
    #[error("bad open mode")]
    BadOpenMode,
    #[error("permission denied")]
    PermissionDenied,
    #[error("file is exclusively open")]
    ExclusivelyOpen,
    #[error("bad name")]
    BadName,
    #[error("not open for reading")]
    NotForReading,
    #[error("not open for writing")]
    NotForWriting,
    #[error("bad directory offset")]
    BadOffset,
    #[error("count too small")]
    CountTooSmall,
    #[error("cannot remove the root")]
    RemovesRoot,
    #[error("stat too long")]
    StatTooLong,
    #[error("bad stat")]
    BadStat,
    #[error("cannot rename the root")]
    RenamesRoot,
    /// A call on files was refused.
    #[error("{0}")]
    File(FileError),
}

impl From<FileError> for Refusal {
    ghost use Rattle.std.specs.Prelude.{◌≡◌};
    ghost use Rattle.nine_fids.specs.declared.refusal.Refusal.TheVariants.{File};

    ghost from_gives = { λ e r. r ≡ File e };

    fn from(e: FileError) -> Refusal {
        Refusal::File(e)
    }
}

impl From<AllocError> for Refusal {
    ghost use Rattle.std.specs.Prelude.{◌≡◌};
    ghost use Rattle.nine_fids.specs.declared.refusal.Refusal.TheVariants.{File};
    ghost use Rattle.fo_world.specs.declared.error.FileError.TheVariants.{Memory};

    ghost from_gives = { λ _ r. r ≡ File Memory };

    fn from(_: AllocError) -> Refusal {
        Refusal::File(FileError::Memory)
    }
}

impl From<Memory> for Refusal {
    ghost use Rattle.std.specs.Prelude.{◌≡◌};
    ghost use Rattle.nine_fids.specs.declared.refusal.Refusal.TheVariants.{File};
    ghost use Rattle.fo_world.specs.declared.error.FileError.TheVariants as failure;

    ghost from_gives = { λ _ r. r ≡ File failure.Memory };

    fn from(_: Memory) -> Refusal {
        Refusal::File(FileError::Memory)
    }
}

impl<T: Drop> From<AllocFailed<T>> for Refusal {
    ghost use Rattle.std.specs.Prelude.{◌≡◌};
    ghost use Rattle.nine_fids.specs.declared.refusal.Refusal.TheVariants.{File};
    ghost use Rattle.fo_world.specs.declared.error.FileError.TheVariants.{Memory};

    ghost from_gives = { λ _ r. r ≡ File Memory };

    fn from(_: AllocFailed<T>) -> Refusal {
        Refusal::File(FileError::Memory)
    }
}

/// The text of a damaged block.
fn damaged(block: u32) -> Ename
    ensures { result ≡ error_text (failure.Damaged block) }
{
    Ename::from_text(FileError::Damaged(block).text().as_slice())
}

/// The text of a refusal of a call on files.
fn text_of(e: FileError) -> Ename
    ensures { result ≡ error_text e }
{
    match e {
        FileError::Damaged(block) => damaged(block),
        e => Ename::from_text(e.text().as_slice()),
    }
}

/// Whether a refusal of a call on files is a failure.
fn is_failure(e: &FileError) -> bool
    ensures { result ≡ is_failure (File e.now) }
{
    match e {
        FileError::Memory
        | FileError::Full
        | FileError::MainRead
        | FileError::MainWrite
        | FileError::MainSync
        | FileError::ArenaRead
        | FileError::ArenaWrite
        | FileError::ArenaSync
        | FileError::Damaged(_) => true,
        FileError::TooBig
        | FileError::Exists
        | FileError::Absent
        | FileError::NotEmpty
        | FileError::TooDeep
        | FileError::NoNumbers
        | FileError::NotDir
        | FileError::IsDir
        | FileError::ReadOnly
        | FileError::Halted
        | FileError::Gone
        | FileError::DirFull => false,
    }
}

impl Refusal {
    ghost use Rattle.std.specs.Prelude.{◌≡◌};
    ghost use Rattle.nine_wire.specs.declared.message.Reply.TheVariants as reply;
    ghost use Rattle.nine_fids.specs.Refusing.{refusal_text, is_failure};

    /// The text of the refusal.
    fn ename(self) -> Ename
        ensures { result ≡ refusal_text self }
    {
        match self {
            Refusal::NoVersion => Ename::new("no version"),
            Refusal::NoAuthentication => Ename::new("no authentication here"),
            Refusal::FidInUse => Ename::new("fid in use"),
            Refusal::TooManyFids => Ename::new("too many fids"),
            Refusal::UnknownTree => Ename::new("unknown tree"),
            Refusal::UnknownFid => Ename::new("unknown fid"),
            Refusal::TooManyNames => Ename::new("too many names"),
            Refusal::FidIsOpen => Ename::new("fid is open"),
            Refusal::FidIsNotOpen => Ename::new("fid is not open"),
            Refusal::BadOpenMode => Ename::new("bad open mode"),
            Refusal::PermissionDenied => Ename::new("permission denied"),
            Refusal::ExclusivelyOpen => Ename::new("file is exclusively open"),
            Refusal::BadName => Ename::new("bad name"),
            Refusal::NotForReading => Ename::new("not open for reading"),
            Refusal::NotForWriting => Ename::new("not open for writing"),
            Refusal::BadOffset => Ename::new("bad directory offset"),
            Refusal::CountTooSmall => Ename::new("count too small"),
            Refusal::RemovesRoot => Ename::new("cannot remove the root"),
            Refusal::StatTooLong => Ename::new("stat too long"),
            Refusal::BadStat => Ename::new("bad stat"),
            Refusal::RenamesRoot => Ename::new("cannot rename the root"),
            Refusal::File(e) => text_of(e),
        }
    }

    /// Whether the files failed: want of memory or of blocks, a device's fault, or damage.
    pub fn is_failure(&self) -> bool
        ensures { result ≡ is_failure self.now }
    {
        match self {
            Refusal::File(e) => is_failure(e),
            _ => false,
        }
    }

    /// The Rerror that says so.
    pub fn reply(self) -> Reply
        ensures { result ≡ reply.Error (refusal_text self) }
    {
        Reply::Error {
            ename: self.ename(),
        }
    }
}
