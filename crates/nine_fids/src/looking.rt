//! Files looked at.
ghost use Rattle.std.specs.Prelude.{◌≤◌, length, IsTrue, IfOk, IfSome, Result};
ghost use Rattle.std.specs.Option.{option_copied};
ghost use Rattle.fo_world.specs.Fits.{InfoFits};
ghost use Rattle.nine_fids.specs.Told as nine;
ghost use Rattle.nine_fids.specs.Looking.{Looks};

use crate::refusal::Refusal;
use crate::stated::Stated;
use fo_base::Bytes;
use fo_world::{FileOps, Info, Name, Place};
use std::alloc::Global;

/// What is told of the file at a place.
pub fn info_at<F: FileOps>(files: &mut F, at: &Place) -> Result<Info, Refusal>
    requires { IsTrue (F.whole files.old) }
    ensures looks { Looks (⟦<F as Stated>⟧.state files.old) (⟦<F as Stated>⟧.state files.new) (λ e w. nine.info_at e w at.now) result }
    ensures only { F.looks files.old files.new }
    ensures fits { IfOk result InfoFits }
    ensures keeps { F.keeps files.old files.new }
{
    Ok(files.info(at)?)
}

/// What is told of the directory above a place.
pub fn parent_at<F: FileOps>(files: &mut F, at: &Place) -> Result<Info, Refusal>
    requires { IsTrue (F.whole files.old) }
    ensures looks { Looks (⟦<F as Stated>⟧.state files.old) (⟦<F as Stated>⟧.state files.new) (λ e w. nine.parent_at e w at.now) result }
    ensures fits { IfOk result InfoFits }
    ensures keeps { F.keeps files.old files.new }
{
    Ok(files.parent(at)?)
}

/// What is told of the file with a name in a directory.
pub fn named_at<F: FileOps>(files: &mut F, at: &Place, name: &[u8]) -> Result<Info, Refusal>
    requires { IsTrue (F.whole files.old) }
    ensures looks { Looks (⟦<F as Stated>⟧.state files.old) (⟦<F as Stated>⟧.state files.new) (λ e w. nine.named_at e w at.now name.now) result }
    ensures fits { IfOk result InfoFits }
    ensures keeps { F.keeps files.old files.new }
{
    Ok(files.find(at, name)?)
}

/// What is told of the file with the least name in a directory, above the one given; None where there is none.
pub fn next_at<F: FileOps>(
    files: &mut F,
    at: &Place,
    after: Option<&Name>,
) -> Result<Option<Info>, Refusal>
    requires { IsTrue (F.whole files.old) }
    ensures looks { Looks (⟦<F as Stated>⟧.state files.old) (⟦<F as Stated>⟧.state files.new) (λ e w. nine.next_at e w at.now (option_copied after.entry)) result }
    ensures fits { IfOk result (λ found. IfSome found InfoFits) }
    ensures keeps { F.keeps files.old files.new }
{
    Ok(files.next_name(at, after)?)
}

/// The bytes of a file from an offset on, as many as are asked for and exist.
pub fn bytes_at<F: FileOps>(
    alloc: Global,
    files: &mut F,
    at: &Place,
    offset: u64,
    count: usize,
) -> Result<Bytes, Refusal>
    requires { IsTrue (F.whole files.old) }
    ensures looks { Looks (⟦<F as Stated>⟧.state files.old) (⟦<F as Stated>⟧.state files.new) (λ e w. nine.bytes_at e w at.now offset count) result }
    ensures within { IfOk result (λ bytes. length bytes ≤ count) }
    ensures keeps { F.keeps files.old files.new }
{
    let mut bytes = vec![in alloc; 0; count]?;
    let len = files.read(at, offset, bytes.as_mut_slice())?;
    bytes.truncate(len);
    Ok(Bytes::new(bytes))
}
