//! The root of the dated directories, which has no names.
ghost use Rattle.std.specs.Prelude.{◌≡◌, ◌&&◌, ℕ, List, true, false, nat_eq, length, IfOk, IfErr, IfSome};
ghost use Rattle.std.specs.Option.{option_copied};
ghost use Rattle.fo_world.specs.declared.error.FileError.TheVariants.{Memory, Absent, IsDir};
ghost use Rattle.fo_world.specs.declared.place.Change.{Change};
ghost use Rattle.fo_world.specs.Dated.{adm, dated_node, slash};
ghost use Rattle.fo_world.specs.Fits.{InfoFits};
ghost use Rattle.fo_world.specs.Step as step;
ghost use Rattle.fo_world.specs.Step.{info_of, is_active};
ghost use Rattle.fo_files_views.specs.Aside.{IsOwn, Says, SaysOrWants, SaysWhy, is_years, is_dated_root, refused_at, unchanged};

use fo_base::Bytes;
use fo_world::{DMDIR, FileError, Info, Place, View};
use std::alloc::{AllocError, Global};

/// The mode of a dated directory: DMDIR and 0555.
const DATED_MODE: u32 = DMDIR | 0o555;

/// The number of the root of the dated directories.
const DATED_NUMBER: u32 = 1 << 31;

/// Whether a view is that of the years of the dated directories.
fn is_years(view: View) -> bool
    ensures { result ≡ is_years view }
{
    match view {
        View::Dated { year, monthday, .. } => year == 0 && monthday == 0,
        _ => false,
    }
}

/// Whether a place is the root of the dated directories.
fn is_dated_root(at: &Place) -> bool
    ensures { result ≡ is_dated_root at.now }
{
    is_years(at.view) && at.trail.as_slice().is_empty()
}

/// The user `adm`.
fn adm(alloc: Global) -> Result<Bytes, AllocError>
    ensures { IfOk result (λ b. b ≡ adm) }
{
    Bytes::copy_of(alloc, b"adm")
}

/// What is told of the root of the dated directories at this place. Refused: want of memory.
fn told_of_root(alloc: Global, at: &Place) -> Result<Info, AllocError>
    requires root { is_dated_root at.now ≡ true }
    ensures is { IfOk result (λ i. i ≡ info_of at.now (slash, dated_node 0 0)) }
{
    Ok(Info {
        place: at.copy(alloc)?,
        name: Bytes::copy_of(alloc, b"/")?,
        path: at.view.path(DATED_NUMBER),
        vers: 0,
        mode: DATED_MODE,
        atime: 0,
        mtime: 0,
        length: 0,
        uid: adm(alloc)?,
        gid: adm(alloc)?,
        muid: adm(alloc)?,
    })
}

/// The refusal at the root of the dated directories; elsewhere nothing is there.
fn refused_at(at: &Place, why: FileError) -> FileError
    ensures { result ≡ refused_at at.now why }
{
    if is_dated_root(at) {
        why
    } else {
        FileError::Gone
    }
}

/// What is told of the file at a place of another view.
pub(crate) fn info_aside(alloc: Global, at: &Place) -> Result<Info, FileError>
    requires aside { is_active at.now.view ≡ false }
    ensures fits { IfOk result InfoFits }
    ensures told { SaysOrWants (λ w. step.info true w at.now) result }
    ensures own { IfErr result IsOwn }
{
    if !is_dated_root(at) {
        return Err(FileError::Gone);
    }
    match told_of_root(alloc, at) {
        Ok(told) => Ok(told),
        Err(_) => Err(FileError::Memory),
    }
}

/// What is told of the directory above a place of another view: the root of the dated directories is above itself.
pub(crate) fn parent_aside(alloc: Global, at: &Place) -> Result<Info, FileError>
    requires aside { is_active at.now.view ≡ false }
    ensures fits { IfOk result InfoFits }
    ensures told { SaysOrWants (λ w. step.parent true w at.now) result }
    ensures own { IfErr result IsOwn }
{
    if !is_dated_root(at) {
        return Err(FileError::Gone);
    }
    match told_of_root(alloc, at) {
        Ok(told) => Ok(told),
        Err(_) => Err(FileError::Memory),
    }
}

/// Why no file with this name is found in another view.
pub(crate) fn no_find(at: &Place, name: &[u8]) -> FileError
    requires aside { is_active at.now.view ≡ false }
    ensures why { SaysWhy (λ w. step.find true w at.now name.now) result }
    ensures own { IsOwn result }
{
    let _ = name;
    refused_at(at, FileError::Absent)
}

/// What is told of the next name in a directory of another view, where there is none.
pub(crate) fn next_aside(at: &Place, after: Option<&Bytes>) -> Result<Option<Info>, FileError>
    requires aside { is_active at.now.view ≡ false }
    ensures fits { IfOk result (λ told. IfSome told InfoFits) }
    ensures told { Says (λ w. step.next_name true w at.now (option_copied after.entry)) result }
    ensures own { IfErr result IsOwn }
{
    let _ = after;
    if !is_dated_root(at) {
        return Err(FileError::Gone);
    }
    Ok(None)
}

/// Why no bytes of another view are read.
pub(crate) fn no_read(at: &Place) -> FileError
    requires aside { is_active at.now.view ≡ false }
    ensures why { (offset count : ℕ) → SaysWhy (λ w. step.read true w at.now offset count) result }
    ensures own { IsOwn result }
{
    refused_at(at, FileError::IsDir)
}

/// Why no bytes are written to a file of another view than the active tree.
pub fn no_write(at: &Place) -> FileError
    requires aside { is_active at.now.view ≡ false }
    ensures why { (largest offset : ℕ) (bytes who : List ℕ) (now : ℕ) → SaysWhy (λ w. step.write true largest w at.now offset bytes who now) result }
    ensures own { IsOwn result }
{
    refused_at(at, FileError::IsDir)
}

/// Why no file is made in another view than the active tree.
pub fn no_create(at: &Place) -> FileError
    requires aside { is_active at.now.view ≡ false }
    ensures why { (name : List ℕ) (mode : ℕ) (who uid gid : List ℕ) (now : ℕ) → SaysWhy (λ w. step.create true w at.now name mode who uid gid now) result }
    ensures own { IsOwn result }
{
    refused_at(at, FileError::ReadOnly)
}

/// Why no file of another view than the active tree is removed.
pub fn no_remove(at: &Place) -> FileError
    requires aside { is_active at.now.view ≡ false }
    ensures why { (who : List ℕ) (now : ℕ) → SaysWhy (λ w. step.remove true w at.now who now) result }
    ensures own { IsOwn result }
{
    refused_at(at, FileError::ReadOnly)
}

/// The refusal at the root of the dated directories, where this length is given.
fn unchanged(length: Option<u64>) -> FileError
    ensures { result ≡ unchanged length }
{
    match length {
        None => FileError::ReadOnly,
        Some(given) => {
            if 0 < given {
                FileError::IsDir
            } else {
                FileError::ReadOnly
            }
        }
    }
}

/// Why nothing of a file of another view than the active tree is changed, where this length is given.
pub fn no_change(at: &Place, length: Option<u64>) -> FileError
    requires aside { is_active at.now.view ≡ false }
    ensures why { (largest : ℕ) (what : Change) (who : List ℕ) (now : ℕ) → what.length ≡ length → SaysWhy (λ w. step.change true largest w at.now what who now) result }
    ensures own { IsOwn result }
{
    refused_at(at, unchanged(length))
}
