//! Walking along names.
ghost use Rattle.std.specs.Prelude.{◌≡◌, ◌==◌, [], IsTrue, IfOk, IfErr, MatchResult};
ghost use Rattle.nine_fids.specs.Told.{served};
ghost use Rattle.nine_fids.specs.Looking.{HasCause, Looks, MayMiss};
ghost use Rattle.nine_files.specs.Walking as nine;
ghost use Rattle.nine_files.specs.Parts.{arrived, IsPart};
ghost use Rattle.nine_files.specs.Answering.{Misses};

use crate::rights::{is_granted, no_users};
use fo_users::{Right, Users};
use fo_world::{FileError, FileOps, Info, Name, Place};
use nine_fids::{
    Fid, KnownUsers, Refusal, Stated, info_at, is_dir, named_at, parent_at, qid_of, table_of,
};
use nine_wire::Qids;
use std::alloc::Global;

/// How far a walk comes: the qids of what it passes, the last place, and why it stops before its end.
#[derive(Drop)]
pub struct Walked {
    pub qids: Qids,
    pub last: Place,
    pub stopped: Option<Refusal>,
}

/// Whether a name leads to the directory above.
fn is_up(name: &[u8]) -> bool
    ensures { result ≡ nine.is_up name.now }
{
    name == b"..".as_slice()
}

/// Whether a name is that of no file.
fn stands_for_none(name: &[u8]) -> bool
    ensures { result ≡ nine.stands_for_none name.now }
{
    name == b"".as_slice() || name == b".".as_slice()
}

/// What a name leads to from a file, for a user of this table.
fn next<F: FileOps>(
    files: &mut F,
    users: &Users,
    user: &Name,
    from: &Info,
    name: &[u8],
) -> Result<Info, Refusal>
    requires { IsTrue (F.whole files.old) }
    ensures looks { Looks (⟦<F as Stated>⟧.state files.old) (⟦<F as Stated>⟧.state files.new) (λ e w. nine.next_by users.now e w user.now from.now name.now) result }
    ensures keeps { F.keeps files.old files.new }
{
    if !is_dir(from.mode) {
        return Err(Refusal::File(FileError::NotDir));
    }
    if !users.may(user, from, Right::Execute) {
        return Err(Refusal::PermissionDenied);
    }
    if is_up(name) {
        return parent_at(files, &from.place);
    }
    if stands_for_none(name) {
        return Err(Refusal::File(FileError::Absent));
    }
    named_at(files, &from.place, name)
}

/// Goes along the names as far as they lead. A failure of the files ends it as a whole.
fn follow<F: FileOps>(
    alloc: Global,
    files: &mut F,
    users: &Users,
    user: &Name,
    names: &[Name],
    from: Info,
) -> Result<Walked, Refusal>
    requires { IsTrue (F.whole files.old) }
    ensures comes { F.honest files.old → MatchResult result
        (λ w. w ≡ nine.walked_by users.now (served (F.whole files.old) (F.largest files.old)) (F.world files.old) user.now names.now from)
        (Misses (MayMiss (F.faults files.old) (F.faults files.new) (F.honest files.old))) }
    ensures part { IfOk result (IsPart names.now) }
    ensures world { F.honest files.old → F.world files.new ≡ F.world files.old }
    ensures cause { IfErr result (HasCause (⟦<F as Stated>⟧.state files.old) (⟦<F as Stated>⟧.state files.new) 0) }
    ensures keeps { F.keeps files.old files.new }
{
    let mut qids = Vec::new(alloc);
    let mut last = from;
    for name in names {
        match next(files, users, user, &last, name.as_slice()) {
            Ok(found) => {
                qids.push(qid_of(&found))?;
                last = found;
            }
            Err(refusal) => {
                if refusal.is_failure() {
                    return Err(refusal);
                }
                return Ok(Walked {
                    qids: Qids::new(qids),
                    last: last.place,
                    stopped: Some(refusal),
                });
            }
        }
    }
    Ok(Walked {
        qids: Qids::new(qids),
        last: last.place,
        stopped: None,
    })
}

/// The same by the table of no users.
fn follow_freely<F: FileOps>(
    alloc: Global,
    files: &mut F,
    user: &Name,
    names: &[Name],
    from: Info,
) -> Result<Walked, Refusal>
    requires { IsTrue (F.whole files.old) }
    ensures comes { F.honest files.old → MatchResult result
        (λ w. w ≡ nine.walked_by [] (served (F.whole files.old) (F.largest files.old)) (F.world files.old) user.now names.now from)
        (Misses (MayMiss (F.faults files.old) (F.faults files.new) (F.honest files.old))) }
    ensures part { IfOk result (IsPart names.now) }
    ensures world { F.honest files.old → F.world files.new ≡ F.world files.old }
    ensures cause { IfErr result (HasCause (⟦<F as Stated>⟧.state files.old) (⟦<F as Stated>⟧.state files.new) 0) }
    ensures keeps { F.keeps files.old files.new }
{
    let users = no_users(alloc);
    follow(alloc, files, &users, user, names, from)
}

/// Whether a walk is by one name, and its user may go through its first directory whatever the table of users is.
fn is_free(alloc: Global, user: &Name, names: &[Name], start: &Info) -> bool
    ensures { result ≡ nine.is_free user.now names.now start.now }
{
    names.len() == 1 && is_granted(alloc, user, start, Right::Execute)
}

/// Goes from a fid's file along the names: what it passes and comes to, or a failure of the files. With no name the fid's file is
/// not looked at, and the table of users is read where it can tell something. Files that answer for all views are asked for.
pub fn walk_from<F: FileOps>(
    alloc: Global,
    files: &mut F,
    known_users: &mut KnownUsers,
    fid: &Fid,
    names: &[Name],
) -> Result<Walked, Refusal>
    requires { IsTrue (F.whole files.old) }
    ensures arrives { Looks (⟦<F as Stated>⟧.state files.old) (⟦<F as Stated>⟧.state files.new) (λ e w. arrived e w fid.now names.now) result }
    ensures part { IfOk result (IsPart names.now) }
    ensures keeps { F.keeps files.old files.new }
{
    if names.is_empty() {
        return Ok(Walked {
            qids: Qids::new(Vec::new(alloc)),
            last: fid.place.copy(alloc)?,
            stopped: None,
        });
    }
    let start = info_at(files, &fid.place)?;
    if is_free(alloc, &fid.user, names, &start) {
        return follow_freely(alloc, files, &fid.user, names, start);
    }
    let users = table_of(alloc, files, known_users)?;
    follow(alloc, files, users, &fid.user, names, start)
}
