//! The table of users as it was last read.
ghost use Rattle.std.specs.Prelude.{◌≡◌, IfOk, IfErr};
ghost use Rattle.fo_world.specs.declared.error.FileError.TheVariants as failure;
ghost use Rattle.nine_fids.specs.declared.refusal.Refusal.TheVariants as refusal;
ghost use Rattle.nine_fids.specs.Spelled.{table_for};

use crate::refusal::Refusal;
use fo_base::Bytes;
use fo_users::{Users, UsersError, read_users};
use fo_world::FileError;
use std::alloc::Global;
use std::marker::Model;

/// The bytes of /adm/users that were last read, 65536 at most, and the table that they stand for: the one that they spell, or else
/// the standard one. Bytes are parsed only where they differ from the last ones.
#[derive(Drop)]
pub struct KnownUsers {
    bytes: Option<Bytes>,
    users: Users,
}

impl Model for KnownUsers {
    ghost use Rattle.std.specs.Prelude.{ℕ, List, Option};
    ghost use Rattle.nine_fids.specs.Spelled.{Agree};

    ghost Value = { Option (List ℕ) };

    ghost view = { λ k. k.bytes };

    ghost invariant = { λ k. Agree k.bytes k.users };
}

/// The table that the bytes spell, or else the standard one.
fn users_in(alloc: Global, bytes: &[u8]) -> Result<Users, Refusal>
    ensures users { IfOk result (λ users. users ≡ table_for bytes.now) }
    ensures memory { IfErr result (λ r. r ≡ refusal.File failure.Memory) }
{
    match read_users(alloc, bytes) {
        Ok(users) => Ok(users),
        Err(UsersError::BadUsers) => Ok(Users::standard(alloc)?),
        Err(UsersError::Memory) => Err(Refusal::File(FileError::Memory)),
    }
}

impl KnownUsers {
    ghost use Rattle.std.specs.Prelude.{◌≡◌, ◌≤◌, ◌^◌, length, false, Some, None, IfSome, IfOk, IfErr, OnOk, OnErr};
    ghost use Rattle.std.specs.Option.{option_map_or};
    ghost use Rattle.std.specs.Str.{bytes_eq};
    ghost use Rattle.fo_world.specs.declared.error.FileError.TheVariants as failure;
    ghost use Rattle.nine_fids.specs.declared.refusal.Refusal.TheVariants as refusal;
    ghost use Rattle.nine_fids.specs.Spelled.{table_for};

    /// No bytes were read yet.
    pub fn new(alloc: Global) -> KnownUsers
        ensures { result ≡ None }
    {
        KnownUsers {
            bytes: None,
            users: Users::new(Vec::new(alloc)),
        }
    }

    /// Whether these are the bytes that were last read.
    fn are_known(&self, bytes: &[u8]) -> bool
        ensures { result ≡ option_map_or (λ known. bytes_eq known bytes.now) self.now false }
    {
        match &self.bytes {
            Some(known) => known.as_slice() == bytes,
            None => false,
        }
    }

    /// Keeps these bytes and their table. Want of memory leaves what was kept.
    fn learn(&mut self, alloc: Global, bytes: Bytes) -> Result<(), Refusal>
        requires { length bytes ≤ 2 ^ 16 }
        ensures kept { OnOk result (self.new ≡ Some bytes) }
        ensures left { OnErr result (self.new ≡ self.old) }
        ensures memory { IfErr result (λ r. r ≡ refusal.File failure.Memory) }
    {
        if self.are_known(bytes.as_slice()) {
            return Ok(());
        }
        let users = users_in(alloc, bytes.as_slice())?;
        self.users = users;
        self.bytes = Some(bytes);
        Ok(())
    }

    /// The table that was learnt last.
    fn users(&self) -> &Users
        ensures { IfSome self.now (λ bytes. result.now ≡ table_for bytes) }
    {
        &self.users
    }

    /// The table that the bytes spell, or else the standard one.
    pub fn of(&mut self, alloc: Global, bytes: Bytes) -> Result<&Users, Refusal>
        requires { length bytes ≤ 2 ^ 16 }
        ensures users { IfOk result (λ users. users.now ≡ table_for bytes) }
        ensures memory { IfErr result (λ r. r ≡ refusal.File failure.Memory) }
    {
        self.learn(alloc, bytes)?;
        Ok(self.users())
    }
}
