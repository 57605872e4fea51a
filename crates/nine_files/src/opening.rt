//! Opening, creating and truncating files.
ghost use Rattle.std.specs.Prelude.{◌≡◌, IsTrue, IfOk, Result, Ok};
ghost use Rattle.fo_world.specs.Fits.{InfoFits};
ghost use Rattle.fo_world.specs.Limits.{IsUser};
ghost use Rattle.nine_fids.specs.Told.{qid_of};
ghost use Rattle.nine_fids.specs.Looking.{Looks};
ghost use Rattle.nine_files.specs.Answering.{Changes};
ghost use Rattle.nine_files.specs.Granting as granting;
ghost use Rattle.nine_files.specs.Opening as nine;

use crate::rights::{may, no_users};
use fo_users::{Right, Users};
use fo_world::{Change, FileError, FileOps, Info, Name, Place, View};
use nine_fids::{
    Access, Fid, KnownUsers, Mode, Opened, Refusal, Stated, appends, info_at, is_dir, is_exclusive,
    is_listed, may_write_above, number_at, qid_of, table_of,
};
use nine_wire::Qid;
use std::alloc::Global;

/// Whether a name can't be given: it is empty, `.`, `..`, has a `/`, or more than 255 bytes.
pub(crate) fn is_bad_name(name: &[u8]) -> bool
    ensures { result ≡ nine.is_bad_name name.now }
{
    name == b"".as_slice()
        || name == b".".as_slice()
        || name == b"..".as_slice()
        || name.contains(&b'/')
        || name.len() > 255
}

/// The mode of a new file: of 0666 (for a directory, of 0777) what the directory above has, and of the other bits 0111, DMAPPEND,
/// DMEXCL and DMTMP (for a directory, DMDIR and DMTMP).
pub fn new_mode(perm: u32, above: u32) -> u32
    ensures { result ≡ nine.new_mode perm above }
{
    if is_dir(perm) {
        perm & (0x8400_0000 | (above & 0o777))
    } else {
        perm & (0x6400_0049 | (above & 0o666))
    }
}

/// Whether a user has the right to a file that an access wants.
fn may_access(users: &Users, user: &Name, info: &Info, access: Access) -> bool
    ensures { result ≡ nine.may_access users.now user.now info.now access }
{
    match access {
        Access::Read => users.may(user, info, Right::Read),
        Access::Write => users.may(user, info, Right::Write),
        Access::Execute => users.may(user, info, Right::Execute),
        Access::ReadWrite => {
            users.may(user, info, Right::Read) && users.may(user, info, Right::Write)
        }
    }
}

/// Whether a user has the rights to a file that a mode wants.
fn may_open(users: &Users, user: &Name, info: &Info, mode: Mode) -> bool
    ensures { result ≡ nine.may_open users.now user.now info.now mode }
{
    may_access(users, user, info, mode.access)
        && (!mode.truncate || users.may(user, info, Right::Write))
}

/// Refuses who may not, by this table, open a file so.
fn check_rights<F: FileOps>(
    files: &mut F,
    users: &Users,
    fid: &Fid,
    info: &Info,
    mode: Mode,
) -> Result<(), Refusal>
    requires { IsTrue (F.whole files.old) }
    ensures looks { Looks (⟦<F as Stated>⟧.state files.old) (⟦<F as Stated>⟧.state files.new) (λ e w. nine.opening_rights_by users.now e w fid.now info.now mode) result }
    ensures keeps { F.keeps files.old files.new }
{
    if !may_open(users, &fid.user, info, mode) {
        return Err(Refusal::PermissionDenied);
    }
    if !mode.remove {
        return Ok(());
    }
    may_write_above(files, users, fid)
}

/// Whether the rights that a mode wants are there whatever the table of users is, and it wants none to the directory.
fn is_free(alloc: Global, user: &Name, info: &Info, mode: Mode) -> bool
    ensures { result ≡ nine.is_free user.now info.now mode }
{
    !mode.remove && may_open(&no_users(alloc), user, info, mode)
}

/// Refuses who may not open a file so. The table of users is read where the file's own bits don't tell.
fn check_opening<F: FileOps>(
    alloc: Global,
    files: &mut F,
    known_users: &mut KnownUsers,
    fid: &Fid,
    info: &Info,
    mode: Mode,
) -> Result<(), Refusal>
    requires { IsTrue (F.whole files.old) }
    ensures looks { Looks (⟦<F as Stated>⟧.state files.old) (⟦<F as Stated>⟧.state files.new) (λ e w. nine.opening_rights e w fid.now info.now mode) result }
    ensures keeps { F.keeps files.old files.new }
{
    if is_free(alloc, &fid.user, info, mode) {
        return Ok(());
    }
    let users = table_of(alloc, files, known_users)?;
    check_rights(files, users, fid, info, mode)
}

/// The mode in which a file may be opened, where its kind and its view allow it.
#[tactic(auto, unfolding(crate::specs::Opening::allowed_mode))]
fn allowed_mode(fid: &Fid, info: &Info, mode: u8) -> Result<Mode, Refusal>
    ensures { result ≡ nine.allowed_mode fid.now info.now mode }
{
    let mode = Mode::of(mode).ok_or(Refusal::BadOpenMode)?;
    if fid.place.view != View::Active && mode.changes() {
        return Err(Refusal::File(FileError::ReadOnly));
    }
    if is_dir(info.mode) && mode.is_more() {
        return Err(Refusal::File(FileError::IsDir));
    }
    Ok(mode)
}

/// The mode in which a new file may be made, where the name and the directory allow it.
#[tactic(auto, unfolding(crate::specs::Opening::allowed_new))]
fn allowed_new(fid: &Fid, above: &Info, name: &[u8], perm: u32, mode: u8) -> Result<Mode, Refusal>
    ensures { result ≡ nine.allowed_new fid.now above.now name.now perm mode }
{
    if !is_dir(above.mode) {
        return Err(Refusal::File(FileError::NotDir));
    }
    if fid.place.view != View::Active {
        return Err(Refusal::File(FileError::ReadOnly));
    }
    if is_bad_name(name) {
        return Err(Refusal::BadName);
    }
    let mode = Mode::of(mode).ok_or(Refusal::BadOpenMode)?;
    if is_dir(perm) && mode.is_more() {
        return Err(Refusal::BadOpenMode);
    }
    Ok(mode)
}

/// Whether a file is for exclusive use and open.
fn is_held(from: &Fid, info: &Info, exclusive: &[u32]) -> bool
    ensures { result ≡ granting.is_held from.now info.now exclusive.now }
{
    is_exclusive(info.mode) && is_listed(number_at(&from.place), exclusive)
}

/// The file of a fid and the mode in which it may be opened now: it isn't open, the mode may be had for its kind and view, its user
/// has the rights, and it isn't held for exclusive use by any number of `exclusive`. The checks stand in this order.
pub fn admit<F: FileOps>(
    alloc: Global,
    files: &mut F,
    known_users: &mut KnownUsers,
    from: &Fid,
    exclusive: &[u32],
    mode: u8,
) -> Result<(Info, Mode), Refusal>
    requires { IsTrue (F.whole files.old) }
    ensures looks { Looks (⟦<F as Stated>⟧.state files.old) (⟦<F as Stated>⟧.state files.new) (λ e w. granting.admitted e w from.now exclusive.now mode) result }
    ensures fits { IfOk result (λ p. InfoFits p.0) }
    ensures allowed { IfOk result (λ p. nine.allowed_mode from.now p.0 mode ≡ Ok p.1) }
    ensures keeps { F.keeps files.old files.new }
{
    if from.opened.is_some() {
        return Err(Refusal::FidIsOpen);
    }
    let info = info_at(files, &from.place)?;
    let mode = allowed_mode(from, &info, mode)?;
    check_opening(alloc, files, known_users, from, &info, mode)?;
    if is_held(from, &info, exclusive) {
        return Err(Refusal::ExclusivelyOpen);
    }
    Ok((info, mode))
}

/// The directory of a fid and the mode in which a new file may be made in it: the fid isn't open, the directory, its view, the name
/// and the mode allow it, and its user may write there. The checks stand in this order.
pub fn admit_new<F: FileOps>(
    alloc: Global,
    files: &mut F,
    known_users: &mut KnownUsers,
    from: &Fid,
    name: &[u8],
    perm: u32,
    mode: u8,
) -> Result<(Info, Mode), Refusal>
    requires { IsTrue (F.whole files.old) }
    ensures looks { Looks (⟦<F as Stated>⟧.state files.old) (⟦<F as Stated>⟧.state files.new) (λ e w. granting.admitted_new e w from.now name.now perm mode) result }
    ensures fits { IfOk result (λ p. InfoFits p.0) }
    ensures allowed { IfOk result (λ p. nine.allowed_new from.now p.0 name.now perm mode ≡ Ok p.1) }
    ensures keeps { F.keeps files.old files.new }
{
    if from.opened.is_some() {
        return Err(Refusal::FidIsOpen);
    }
    let above = info_at(files, &from.place)?;
    let mode = allowed_new(from, &above, name, perm, mode)?;
    let may_add = may(alloc, files, known_users, &from.user, &above, Right::Write)?;
    if !may_add {
        return Err(Refusal::PermissionDenied);
    }
    Ok((above, mode))
}

/// Whether OTRUNC makes a file empty.
fn cuts(info: &Info, mode: Mode) -> bool
    ensures { result ≡ nine.cuts info.now mode }
{
    mode.truncate && !appends(info.mode) && info.length > 0
}

/// The qid of a file that was made empty.
fn cut_qid(info: &Info) -> Qid
    ensures { result ≡ qid_of (nine.cut_info info.now) }
{
    let mut qid = qid_of(info);
    qid.vers = qid.vers.wrapping_add(1);
    qid
}

/// Length 0, and no other change.
fn emptied() -> Change
    ensures { result ≡ nine.emptied }
{
    Change {
        mode: None,
        mtime: None,
        length: Some(0),
        name: None,
        gid: None,
    }
}

/// Makes the file of a fid, whose user is one of files, empty where OTRUNC asks for it at the moment `now`: the qid that it has
/// then. A refusal or a failure leaves the world.
pub fn truncate<F: FileOps>(
    files: &mut F,
    fid: &Fid,
    info: &Info,
    mode: Mode,
    now: u32,
) -> Result<Qid, Refusal>
    requires whole { IsTrue (F.whole files.old) }
    requires user { IsUser fid.now.user }
    ensures { Changes (⟦<F as Stated>⟧.state files.old) (⟦<F as Stated>⟧.state files.new)
        (λ w n. F.touches files.old w n files.new)
        (λ e w. granting.told_qid (nine.truncated e w fid.now info.now mode now)) (λ e w. nine.cut_need e w fid.now info.now mode) (nine.most_cut fid.now info.now mode) result }
{
    if !cuts(info, mode) {
        return Ok(qid_of(info));
    }
    files.change(&fid.place, &emptied(), &fid.user, now)?;
    Ok(cut_qid(info))
}

/// A fid that is open, and has read nothing yet.
pub fn open_fid(number: u32, user: Name, place: Place, mode: Mode, exclusive: bool) -> Fid
    ensures { result ≡ record { number = number; user = user; place = place; opened = nine.opened_so mode exclusive } }
{
    Fid {
        number,
        user,
        place,
        opened: Some(Opened {
            access: mode.access,
            remove: mode.remove,
            exclusive,
            offset: 0,
            last: None,
        }),
    }
}
