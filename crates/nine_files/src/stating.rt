//! Changing what a stat record says of a file.
ghost use Rattle.std.specs.Prelude.{◌≡◌, ◌||◌, not, IsTrue, IfOk, IfSome, Ok, Result};
ghost use Rattle.fo_world.specs.Limits.{IsUser};
ghost use Rattle.fo_world.specs.Step as step;
ghost use Rattle.nine_fields.specs.Field.{TextFits};
ghost use Rattle.nine_fids.specs.Told.{served, info_at};
ghost use Rattle.nine_fids.specs.Looking.{Looks};
ghost use Rattle.nine_files.specs.Answering.{Leads};
ghost use Rattle.nine_files.specs.Granting as granting;
ghost use Rattle.nine_files.specs.Stating as nine;

use crate::opening::is_bad_name;
use crate::removing::is_active;
use fo_users::{Right, Users};
use fo_world::{Change, FileError, FileOps, Info, Name};
use nine_fids::{
    Fid, KnownUsers, Refusal, Stated, info_at, is_dir, may_give, may_write_above, owns, qid_of,
    table_of,
};
use nine_stat::Stat;
use std::alloc::Global;

/// A number that is given: not all ones.
fn given16(n: u16) -> Option<u16>
    ensures { result ≡ nine.given 16 n }
{
    if n == u16::MAX { None } else { Some(n) }
}

/// A number that is given: not all ones.
fn given32(n: u32) -> Option<u32>
    ensures { result ≡ nine.given 32 n }
{
    if n == u32::MAX { None } else { Some(n) }
}

/// A number that is given: not all ones.
fn given64(n: u64) -> Option<u64>
    ensures { result ≡ nine.given 64 n }
{
    if n == u64::MAX { None } else { Some(n) }
}

/// A text that is given: not empty.
fn given_text(text: Name) -> Option<Name>
    ensures { result ≡ nine.given_text text }
{
    if text.as_slice().is_empty() {
        None
    } else {
        Some(text)
    }
}

/// Whether a text is given that is not this one.
fn text_differs(text: &Name, now: &Name) -> bool
    ensures { result ≡ nine.text_differs (nine.given_text text.now) now.now }
{
    !text.as_slice().is_empty() && text.as_slice() != now.as_slice()
}

/// Whether a field is given that can't be changed.
pub fn touches_fixed(stat: &Stat) -> bool
    ensures { result ≡ nine.touches_fixed stat.now }
{
    stat.kind != u16::MAX
        || stat.dev != u32::MAX
        || stat.qid.kind != u8::MAX
        || stat.qid.vers != u32::MAX
        || stat.qid.path != u64::MAX
        || !stat.uid.as_slice().is_empty()
        || !stat.muid.as_slice().is_empty()
}

/// Whether a field that can't be changed is given another value than the present one.
pub fn changes_fixed(stat: &Stat, info: &Info) -> bool
    ensures { result ≡ nine.changes_fixed stat.now info.now }
{
    let qid = qid_of(info);
    (stat.kind != u16::MAX && stat.kind != 0)
        || (stat.dev != u32::MAX && stat.dev != 0)
        || (stat.qid.kind != u8::MAX && stat.qid.kind != qid.kind)
        || (stat.qid.vers != u32::MAX && stat.qid.vers != qid.vers)
        || (stat.qid.path != u64::MAX && stat.qid.path != qid.path)
        || text_differs(&stat.uid, &info.uid)
        || text_differs(&stat.muid, &info.muid)
}

/// What a stat record asks to be changed.
pub fn change_of(stat: Stat) -> Change
    ensures { result ≡ nine.change_of stat }
{
    Change {
        mode: given32(stat.mode),
        mtime: given32(stat.mtime),
        length: given64(stat.length),
        name: given_text(stat.name),
        gid: given_text(stat.gid),
    }
}

/// Whether anything is asked to be changed.
fn touches(what: &Change) -> bool
    ensures { result ≡ nine.touches what.now }
{
    what.mode.is_some()
        || what.mtime.is_some()
        || what.length.is_some()
        || what.name.is_some()
        || what.gid.is_some()
}

/// Whether DMDIR would come or go, or a directory get a length.
fn is_bad_change(what: &Change, info: &Info) -> bool
    ensures { result ≡ (nine.changes_kind what.now.mode info.now.mode || nine.lengthens what.now.length info.now.mode) }
{
    let changes_kind = match what.mode {
        Some(mode) => is_dir(mode) != is_dir(info.mode),
        None => false,
    };
    let lengthens = match what.length {
        Some(length) => is_dir(info.mode) && length != 0,
        None => false,
    };
    changes_kind || lengthens
}

/// Whether a group is given that the table lacks.
fn is_strange(users: &Users, gid: &Option<Name>) -> bool
    ensures { result ≡ nine.is_strange users.now gid.now }
{
    match gid {
        None => false,
        Some(gid) => !users.known(gid),
    }
}

/// Whether a user has the rights that a change needs, but that of a name.
fn may_change(users: &Users, user: &Name, info: &Info, what: &Change) -> bool
    ensures { result ≡ nine.may_change users.now user.now info.now what.now }
{
    let regroups = match &what.gid {
        None => true,
        Some(gid) => may_give(users, user, info, gid),
    };
    (what.length.is_none() || users.may(user, info, Right::Write))
        && ((what.mode.is_none() && what.mtime.is_none()) || owns(users, user, info))
        && regroups
}

/// Refuses who may not, by this table, make a change.
fn check_rights<F: FileOps>(
    files: &mut F,
    users: &Users,
    fid: &Fid,
    info: &Info,
    what: &Change,
) -> Result<(), Refusal>
    requires { IsTrue (F.whole files.old) }
    ensures looks { Looks (⟦<F as Stated>⟧.state files.old) (⟦<F as Stated>⟧.state files.new) (λ e w. nine.changing_rights_by users.now e w fid.now info.now what.now) result }
    ensures keeps { F.keeps files.old files.new }
{
    if !may_change(users, &fid.user, info, what) {
        return Err(Refusal::PermissionDenied);
    }
    if what.name.is_none() {
        return Ok(());
    }
    may_write_above(files, users, fid)
}

/// Refuses a name that can't be given, and one for a root.
#[tactic(auto, unfolding(crate::specs::Stating::allowed_name))]
fn check_name(fid: &Fid, name: &Option<Name>) -> Result<(), Refusal>
    ensures { result ≡ nine.allowed_name fid.now name.now }
{
    let Some(name) = name else {
        return Ok(());
    };
    if is_bad_name(name.as_slice()) {
        return Err(Refusal::BadName);
    }
    if fid.place.trail.as_slice().is_empty() {
        return Err(Refusal::RenamesRoot);
    }
    Ok(())
}

/// Whether what is asked for can't be: where a field that can't be changed is, DMDIR would change, a directory get a length, or a
/// group is not known.
fn is_bad_stat(users: &Users, is_bad: bool, what: &Change, info: &Info) -> bool
    ensures { result ≡ granting.is_bad_by users.now is_bad what.now info.now }
{
    is_bad || is_bad_change(what, info) || is_strange(users, &what.gid)
}

/// Whether a stat record touches nothing: `fixed` says that it gives a field that can't be changed, and `what` is the rest.
pub fn is_idle(fixed: bool, what: &Change) -> bool
    ensures { (fixed || nine.touches what.now) ≡ not result }
{
    !fixed && !touches(what)
}

/// Refuses a change that may not be made.
fn check_change<F: FileOps>(
    alloc: Global,
    files: &mut F,
    known_users: &mut KnownUsers,
    fid: &Fid,
    is_bad: bool,
    info: &Info,
    what: &Change,
) -> Result<(), Refusal>
    requires { IsTrue (F.whole files.old) }
    ensures looks { Looks (⟦<F as Stated>⟧.state files.old) (⟦<F as Stated>⟧.state files.new) (λ e w. granting.allowed_change e w fid.now is_bad what.now info.now) result }
    ensures gid { IfOk result (λ _. IfSome what.now.gid IsUser) }
    ensures name { IfOk result (λ _. nine.allowed_name fid.now what.now.name ≡ Ok tt) }
    ensures keeps { F.keeps files.old files.new }
{
    if !is_active(&fid.place.view) {
        return Err(Refusal::File(FileError::ReadOnly));
    }
    let users = table_of(alloc, files, known_users)?;
    if is_bad_stat(users, is_bad, what, info) {
        return Err(Refusal::BadStat);
    }
    check_name(fid, &what.name)?;
    check_rights(files, users, fid, info, what)
}

/// Makes all changes of the file of a fid, or none. `info` is what is told of the file now, and `is_bad` says that a field that can't
/// be changed was given another value. A refusal or a failure leaves the world.
pub fn restate<F: FileOps>(
    alloc: Global,
    files: &mut F,
    known_users: &mut KnownUsers,
    now: u32,
    fid: &Fid,
    is_bad: bool,
    info: &Info,
    what: &Change,
) -> Result<(), Refusal>
    requires whole { IsTrue (F.whole files.old) }
    requires user { IsUser fid.now.user }
    requires info { F.honest files.old → info_at (served (F.whole files.old) (F.largest files.old)) (F.world files.old) fid.now.place ≡ Ok info.now }
    requires name { IfSome what.now.name TextFits }
    ensures { Leads (⟦<F as Stated>⟧.state files.old) (⟦<F as Stated>⟧.state files.new)
        (λ w n. F.touches files.old w n files.new)
        (λ e w. granting.changed_by e w now fid.now is_bad what.now info.now) (λ e w. step.change_need e.whole w fid.now.place what.now) (step.most_need fid.now.place) result }
{
    check_change(alloc, files, known_users, fid, is_bad, info, what)?;
    files.change(&fid.place, what, &fid.user, now)?;
    Ok(())
}

/// Settles all that was changed before.
pub fn settle<F: FileOps>(files: &mut F) -> Result<(), Refusal>
    ensures looks { Looks (⟦<F as Stated>⟧.state files.old) (⟦<F as Stated>⟧.state files.new) (λ e w. Ok tt) result }
    ensures settled { IfOk result (λ _. F.settled files.new) }
    ensures settles { F.settles files.old files.new }
    ensures keeps { F.keeps files.old files.new }
{
    files.sync()?;
    Ok(())
}
