//! Removing files.
ghost use Rattle.std.specs.Prelude.{◌≡◌, IsTrue};
ghost use Rattle.fo_world.specs.Limits.{IsUser};
ghost use Rattle.fo_world.specs.Step as step;
ghost use Rattle.nine_files.specs.Removing as nine;
ghost use Rattle.nine_files.specs.Answering.{HadRoom, Leads};
ghost use Rattle.nine_files.specs.Removing.{removed_there, gone};

use fo_world::{FileError, FileOps, Info, View};
use nine_fids::{Fid, KnownUsers, Refusal, Stated, info_at, may_write_above, table_of};
use std::alloc::Global;

/// Whether a view is that of the active tree.
pub(crate) fn is_active(view: &View) -> bool
    ensures { result ≡ step.is_active view.now }
{
    match view {
        View::Active => true,
        _ => false,
    }
}

/// Removes the file of a fid, which is there.
fn remove_file<F: FileOps>(
    alloc: Global,
    files: &mut F,
    known_users: &mut KnownUsers,
    now: u32,
    fid: &Fid,
) -> Result<(), Refusal>
    requires whole { IsTrue (F.whole files.old) }
    requires user { IsUser fid.now.user }
    ensures changes { Leads (⟦<F as Stated>⟧.state files.old) (⟦<F as Stated>⟧.state files.new)
        (λ w n. F.touches files.old w n files.new)
        (λ e w. nine.removed e w fid.now now) (λ e w. nine.remove_need fid.now) (nine.remove_need fid.now) result }
    ensures room { HadRoom (F.has_room files.old) (nine.remove_need fid.now) result }
{
    if !is_active(&fid.place.view) {
        return Err(Refusal::File(FileError::ReadOnly));
    }
    if fid.place.trail.as_slice().is_empty() {
        return Err(Refusal::RemovesRoot);
    }
    let users = table_of(alloc, files, known_users)?;
    may_write_above(files, users, fid)?;
    files.remove(&fid.place, &fid.user, now)?;
    Ok(())
}

/// Removes the file of a fid that was opened with ORCLOSE, where the file is not gone; for other fids nothing is done. A refusal or
/// a failure leaves the world.
pub fn remove_on_close<F: FileOps>(
    alloc: Global,
    files: &mut F,
    known_users: &mut KnownUsers,
    now: u32,
    fid: &Fid,
) -> Result<(), Refusal>
    requires whole { IsTrue (F.whole files.old) }
    requires user { IsUser fid.now.user }
    ensures { Leads (⟦<F as Stated>⟧.state files.old) (⟦<F as Stated>⟧.state files.new)
        (λ w n. F.touches files.old w n files.new)
        (λ e w. nine.closed e w fid.now now) (λ e w. nine.close_need e w fid.now) (nine.most_close fid.now) result }
{
    if !is_removed(fid) {
        return Ok(());
    }
    let looked = info_at(files, &fid.place);
    if is_gone(&looked) {
        return Ok(());
    }
    looked?;
    remove_file(alloc, files, known_users, now, fid)
}

/// Whether a file is gone.
fn is_gone(looked: &Result<Info, Refusal>) -> bool
    ensures { result ≡ gone looked.now }
{
    match looked {
        Err(Refusal::File(FileError::Gone)) => true,
        _ => false,
    }
}

/// Whether a fid was opened with ORCLOSE.
fn is_removed(fid: &Fid) -> bool
    ensures { result ≡ nine.removes fid.now }
{
    match &fid.opened {
        Some(opened) => opened.remove,
        None => false,
    }
}

/// Removes the file of a fid, where it is there. A refusal or a failure leaves the world.
pub fn remove_there<F: FileOps>(
    alloc: Global,
    files: &mut F,
    known_users: &mut KnownUsers,
    now: u32,
    fid: &Fid,
) -> Result<(), Refusal>
    requires whole { IsTrue (F.whole files.old) }
    requires user { IsUser fid.now.user }
    ensures changes { Leads (⟦<F as Stated>⟧.state files.old) (⟦<F as Stated>⟧.state files.new)
        (λ w n. F.touches files.old w n files.new)
        (λ e w. removed_there e w fid.now now) (λ e w. nine.remove_need fid.now) (nine.remove_need fid.now) result }
    ensures room { HadRoom (F.has_room files.old) (nine.remove_need fid.now) result }
{
    info_at(files, &fid.place)?;
    remove_file(alloc, files, known_users, now, fid)
}
