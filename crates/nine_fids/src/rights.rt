//! Who may do what.
ghost use Rattle.std.specs.Prelude.{◌≡◌, ◌≤◌, ◌^◌, length, true, IsTrue, Option, Ok, IfOk, IfErr, IfSome};
ghost use Rattle.std.specs.List.{list_all};
ghost use Rattle.fo_world.specs.Limits.{IsUser};
ghost use Rattle.fo_world.specs.declared.error.FileError.TheVariants as failure;
ghost use Rattle.fo_users.specs.Table.{is_line};
ghost use Rattle.nine_fids.specs.declared.refusal.Refusal.TheVariants as refusal;
ghost use Rattle.nine_fids.specs.Refusing.{told_apart};
ghost use Rattle.nine_fids.specs.Rights as nine;
ghost use Rattle.nine_fids.specs.Looking.{Looks};
ghost use Rattle.nine_fids.specs.Spelled.{IsSpelled, table_lent};

use crate::fid::Fid;
use crate::known_users::KnownUsers;
use crate::looking::{bytes_at, named_at, parent_at};
use crate::refusal::Refusal;
use crate::stated::Stated;
use fo_base::Bytes;
use fo_users::{Right, Users};
use fo_world::{FileOps, Info, Name, Place, View};
use std::alloc::Global;

/// The most bytes that a table of users has.
const LARGEST_TABLE: u64 = 65536;

/// What was looked for; None where the files have none.
fn where_there<T>(looked: Result<T, Refusal>) -> Result<Option<T>, Refusal>
    ensures { result ≡ told_apart looked }
{
    match looked {
        Ok(value) => Ok(Some(value)),
        Err(refusal) => {
            if refusal.is_failure() {
                Err(refusal)
            } else {
                Ok(None)
            }
        }
    }
}

/// The bytes of a file of at most 65536 bytes.
fn small_file<F: FileOps>(
    alloc: Global,
    files: &mut F,
    info: &Info,
) -> Result<Option<Bytes>, Refusal>
    requires { IsTrue (F.whole files.old) }
    ensures looks { Looks (⟦<F as Stated>⟧.state files.old) (⟦<F as Stated>⟧.state files.new) (λ e w. Ok (nine.small_file e w info.now)) result }
    ensures within { IfOk result (λ found. IfSome found (λ bytes. length bytes ≤ 2 ^ 16)) }
    ensures keeps { F.keeps files.old files.new }
{
    if info.length > LARGEST_TABLE {
        return Ok(None);
    }
    where_there(bytes_at(alloc, files, &info.place, 0, info.length as usize))
}

/// What is told of the file with a name in a directory, where there is one.
fn found_at<F: FileOps>(files: &mut F, at: &Place, name: &[u8]) -> Result<Option<Info>, Refusal>
    requires { IsTrue (F.whole files.old) }
    ensures looks { Looks (⟦<F as Stated>⟧.state files.old) (⟦<F as Stated>⟧.state files.new) (λ e w. Ok (nine.found_at e w at.now name.now)) result }
    ensures keeps { F.keeps files.old files.new }
{
    where_there(named_at(files, at, name))
}

/// The bytes of /adm/users in the active tree.
fn users_file<F: FileOps>(alloc: Global, files: &mut F) -> Result<Option<Bytes>, Refusal>
    requires { IsTrue (F.whole files.old) }
    ensures looks { Looks (⟦<F as Stated>⟧.state files.old) (⟦<F as Stated>⟧.state files.new) (λ e w. Ok (nine.users_file e w)) result }
    ensures within { IfOk result (λ found. IfSome found (λ bytes. length bytes ≤ 2 ^ 16)) }
    ensures keeps { F.keeps files.old files.new }
{
    let root = Place::root(alloc, View::Active);
    let Some(dir) = found_at(files, &root, b"adm")? else {
        return Ok(None);
    };
    let Some(file) = found_at(files, &dir.place, b"users")? else {
        return Ok(None);
    };
    small_file(alloc, files, &file)
}

/// The table of users: that of /adm/users in the active tree, or else the standard one. The file is read once, and parsed where its
/// bytes are not those that are known.
pub fn table_of<'a, F: FileOps>(
    alloc: Global,
    files: &mut F,
    known_users: &'a mut KnownUsers,
) -> Result<&'a Users, Refusal>
    requires { IsTrue (F.whole files.old) }
    ensures looks { Looks (⟦<F as Stated>⟧.state files.old) (⟦<F as Stated>⟧.state files.new) (λ e w. Ok (nine.table_of e w)) (table_lent result) }
    ensures spelled { IfOk result (λ users. IsSpelled users.now) }
    ensures lines { IfOk result (λ users. list_all is_line users.now ≡ true) }
    ensures keeps { F.keeps files.old files.new }
{
    let found = users_file(alloc, files)?;
    let bytes = found.unwrap_or(Bytes::new(Vec::new(alloc)));
    known_users.of(alloc, bytes)
}

/// The user who attaches under this name.
#[tactic(auto, unfolding(crate::specs::Rights::user_of))]
pub fn user_of(alloc: Global, users: &Users, name: &Name) -> Result<Name, Refusal>
    requires { list_all is_line users.now ≡ true }
    ensures user { IfOk result (λ user. user ≡ nine.user_of users.now name.now) }
    ensures fits { IfOk result IsUser }
    ensures memory { IfErr result (λ r. r ≡ refusal.File failure.Memory) }
{
    if users.known(name) {
        return Ok(name.copy(alloc)?);
    }
    Ok(Name::copy_of(alloc, b"none")?)
}

/// Whether a user owns a file, or leads its group.
#[tactic(auto, unfolding(crate::specs::Rights::owns))]
pub fn owns(users: &Users, user: &Name, info: &Info) -> bool
    ensures { result ≡ nine.owns users.now user.now info.now }
{
    user.as_slice() == info.uid.as_slice() || users.leader(user, &info.gid)
}

/// Whether a user may give a file to a group.
#[tactic(auto, unfolding(crate::specs::Rights::may_give))]
pub fn may_give(users: &Users, user: &Name, info: &Info, gid: &Name) -> bool
    ensures { result ≡ nine.may_give users.now user.now info.now gid.now }
{
    (user.as_slice() == info.uid.as_slice() && users.member(user, gid))
        || (users.leader(user, &info.gid) && users.leader(user, gid))
}

/// Refuses who may not write, by this table, in the directory that holds a fid's file.
pub fn may_write_above<F: FileOps>(files: &mut F, users: &Users, fid: &Fid) -> Result<(), Refusal>
    requires { IsTrue (F.whole files.old) }
    ensures looks { Looks (⟦<F as Stated>⟧.state files.old) (⟦<F as Stated>⟧.state files.new) (λ e w. nine.may_write_above_by users.now e w fid.now) result }
    ensures keeps { F.keeps files.old files.new }
{
    let dir = parent_at(files, &fid.place)?;
    if !users.may(&fid.user, &dir, Right::Write) {
        return Err(Refusal::PermissionDenied);
    }
    Ok(())
}
