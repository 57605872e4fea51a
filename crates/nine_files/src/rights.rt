//! Rights for which the table of users need not be read.
ghost use Rattle.std.specs.Prelude.{◌≡◌, [], IsTrue, Ok};
ghost use Rattle.fo_users.specs.Rights as of;
ghost use Rattle.nine_fids.specs.Rights.{table_of};
ghost use Rattle.nine_fids.specs.Looking.{Looks};

use fo_users::{Right, Users};
use fo_world::{FileOps, Info, Name};
use nine_fids::{KnownUsers, Refusal, Stated, table_of};
use std::alloc::Global;

/// The table of no users.
pub(crate) fn no_users(alloc: Global) -> Users
    ensures { result ≡ [] }
{
    Users::new(Vec::new(alloc))
}

/// Whether a user has the right to a file whatever the table is: by the bits of others, of the owner, or of the group of his own name.
pub(crate) fn is_granted(alloc: Global, user: &Name, info: &Info, right: Right) -> bool
    ensures { result ≡ of.may [] user.now info.now right }
{
    no_users(alloc).may(user, info, right)
}

/// Whether a user has the right to a file. The table of users is read where the file's own bits don't tell.
pub(crate) fn may<F: FileOps>(
    alloc: Global,
    files: &mut F,
    known_users: &mut KnownUsers,
    user: &Name,
    info: &Info,
    right: Right,
) -> Result<bool, Refusal>
    requires { IsTrue (F.whole files.old) }
    ensures looks { Looks (⟦<F as Stated>⟧.state files.old) (⟦<F as Stated>⟧.state files.new) (λ e w. Ok (of.may (table_of e w) user.now info.now right)) result }
    ensures keeps { F.keeps files.old files.new }
{
    if is_granted(alloc, user, info, right) {
        return Ok(true);
    }
    let users = table_of(alloc, files, known_users)?;
    Ok(users.may(user, info, right))
}
