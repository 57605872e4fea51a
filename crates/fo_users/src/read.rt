//! Tables of users read.
ghost use Rattle.std.specs.Prelude.{◌≡◌, ◌++◌, ◌∷◌, [], ℕ, List, map, not, ◌||◌, IfOk, OnOk, MatchResult};
ghost use Rattle.std.specs.List.{list_all};
ghost use Rattle.std.specs.Str.{bytes_eq};
ghost use Rattle.fo_users.specs.Seen.{was_seen};
ghost use Rattle.fo_users.specs.Table.{is_name_byte, is_user_name, is_known, is_line, SpellsLine, all_differ, names_known, is_table, Spells};
ghost use Rattle.fo_base.specs.Parts.{parts_at};
ghost use Rattle.fo_users.specs.Parts.{members_of, leader_of, user_of, SpellsLines};
ghost use Rattle.fo_users.specs.declared.table.User.{User};
ghost use Rattle.fo_users.specs.declared.error.UsersError.TheVariants.{Memory as NoMemory};

use crate::error::UsersError;
use crate::table::{Members, User, Users, is_known};
use fo_base::Memory;
use fo_world::Name;
use std::alloc::Global;
use std::collections::BTreeSet;

/// The parts of the bytes round a separator.
fn parts<'a>(alloc: Global, bytes: &'a [u8], separator: u8) -> Result<Vec<&'a [u8]>, Memory>
    ensures { IfOk result (λ v. map (λ x. x.now) v.items ≡ parts_at separator bytes.now) }
{
    Ok(bytes.split(move |b| *b == separator).collect(alloc)?)
}

/// The members that a field names.
fn read_members(alloc: Global, field: &[u8]) -> Result<Members, Memory>
    ensures { IfOk result (λ m. m ≡ members_of field.now) }
{
    let mut names = Vec::new(alloc);
    if !field.is_empty() {
        for name in parts(alloc, field, b',')?.iter() {
            names.push(Name::copy_of(alloc, name)?)?;
        }
    }
    Ok(Members::new(names))
}

/// The leader that a field names.
fn read_leader(alloc: Global, field: &[u8]) -> Result<Option<Name>, Memory>
    ensures { IfOk result (λ l. l ≡ leader_of field.now) }
{
    if field.is_empty() {
        return Ok(None);
    }
    Ok(Some(Name::copy_of(alloc, field)?))
}

/// What a line of four fields says, whatever bytes are in them.
fn read_fields(alloc: Global, line: &[u8]) -> Result<Option<User>, Memory>
    ensures { IfOk result (λ u. u ≡ user_of (parts_at 58 line.now)) }
{
    let fields = parts(alloc, line, b':')?;
    let [id, name, leader, members] = fields.as_slice() else {
        return Ok(None);
    };
    let id = Name::copy_of(alloc, id)?;
    let name = Name::copy_of(alloc, name)?;
    let leader = read_leader(alloc, leader)?;
    let members = read_members(alloc, members)?;
    Ok(Some(User {
        id,
        name,
        leader,
        members,
    }))
}

/// Whether the bytes are a user's name: 1 to 64 ASCII letters, digits, `_`, `-` and `.`.
fn is_user_name(name: &[u8]) -> bool
    ensures { result ≡ is_user_name name.now }
{
    !name.is_empty() && name.len() <= 64 && are_name_bytes(name)
}

fn are_name_bytes(bytes: &[u8]) -> bool
    ensures { result ≡ list_all is_name_byte bytes.now }
{
    bytes.iter().all(|b| b.is_ascii_alphanumeric() || *b == b'_' || *b == b'-' || *b == b'.')
}

fn are_user_names(names: &[Name]) -> bool
    ensures { result ≡ list_all is_user_name names.now }
{
    names.iter().all(|name| is_user_name(name.as_slice()))
}

/// Whether all names in the line are names.
fn is_line(user: &User) -> bool
    ensures { result ≡ is_line user.now }
{
    let leader = match &user.leader {
        Some(leader) => is_user_name(leader.as_slice()),
        None => true,
    };
    is_user_name(user.id.as_slice())
        && is_user_name(user.name.as_slice())
        && leader
        && are_user_names(user.members.as_slice())
}

/// The user whose line the bytes are.
fn read_line(alloc: Global, bytes: &[u8]) -> Result<User, UsersError>
    ensures found { IfOk result (λ u. SpellsLine bytes.now u) }
    ensures only { (u : User) → SpellsLine bytes.now u → MatchResult result (λ v. v ≡ u) (λ e. e ≡ NoMemory) }
{
    let Some(user) = read_fields(alloc, bytes)? else {
        return Err(UsersError::BadUsers);
    };
    if !is_line(&user) {
        return Err(UsersError::BadUsers);
    }
    Ok(user)
}

/// Adds a user behind the others.
fn add(users: &mut Vec<User>, user: User) -> Result<(), Memory>
    ensures { OnOk result (users.new.items ≡ users.old.items ++ user ∷ []) }
{
    users.push(user)?;
    Ok(())
}

/// The users whose lines stand round the newlines.
fn read_lines(alloc: Global, bytes: &[u8]) -> Result<Vec<User>, UsersError>
    ensures found { IfOk result (λ v. SpellsLines (parts_at 10 bytes.now) v.items) }
    ensures only { (us : List User) → SpellsLines (parts_at 10 bytes.now) us → MatchResult result (λ v. v.items ≡ us) (λ e. e ≡ NoMemory) }
{
    let texts = parts(alloc, bytes, b'\n')?;
    let mut users = Vec::new(alloc);
    for text in texts.iter() {
        add(&mut users, read_line(alloc, text)?)?;
    }
    Ok(users)
}

/// Puts a name among those that were seen, and says whether it is new.
fn is_new<'a>(seen: &mut BTreeSet<&'a [u8]>, name: &'a [u8]) -> Result<bool, Memory>
    ensures answer { IfOk result (λ new. new ≡ not (was_seen seen.old name.now)) }
    ensures seen { OnOk result ((q : List ℕ) → was_seen seen.new q ≡ (bytes_eq name.now q || was_seen seen.old q)) }
{
    Ok(seen.insert(name)?)
}

/// Whether ids differ, and names.
fn all_differ(alloc: Global, lines: &[User]) -> Result<bool, Memory>
    ensures { IfOk result (λ b. b ≡ all_differ lines.now) }
{
    let mut ids = BTreeSet::new(alloc);
    let mut names = BTreeSet::new(alloc);
    for line in lines {
        if !is_new(&mut ids, line.id.as_slice())? {
            return Ok(false);
        }
        if !is_new(&mut names, line.name.as_slice())? {
            return Ok(false);
        }
    }
    Ok(true)
}

/// Whether all names are those of users of the table.
fn are_known(lines: &[User], names: &[Name]) -> bool
    ensures { result ≡ list_all (is_known lines.now) names.now }
{
    names.iter().all(|name| is_known(lines, name.as_slice()))
}

/// Whether the line's leader and members are users of the table.
fn names_known(lines: &[User], line: &User) -> bool
    ensures { result ≡ names_known lines.now line.now }
{
    let leader = match &line.leader {
        Some(leader) => is_known(lines, leader.as_slice()),
        None => true,
    };
    leader && are_known(lines, line.members.as_slice())
}

/// Whether the leaders and members of all lines are users of the table.
fn all_names_known(lines: &[User]) -> bool
    ensures { result ≡ list_all (names_known lines.now) lines.now }
{
    lines.iter().all(|line| names_known(lines, line))
}

/// Whether the lines make up a table.
fn is_table(alloc: Global, lines: &[User]) -> Result<bool, Memory>
    ensures { IfOk result (λ b. b ≡ is_table lines.now) }
{
    let apart = all_differ(alloc, lines)?;
    Ok(apart && all_names_known(lines) && is_known(lines, b"adm") && is_known(lines, b"none"))
}

/// The table that the bytes spell.
pub fn read_users(alloc: Global, bytes: &[u8]) -> Result<Users, UsersError>
    // The bytes spell the table that is answered.
    ensures found { IfOk result (λ u. Spells bytes.now u) }
    // A table that they spell is answered, unless memory runs out.
    ensures only { (t : List User) → Spells bytes.now t → MatchResult result (λ u. u ≡ t) (λ e. e ≡ NoMemory) }
{
    let Some(lines) = bytes.strip_suffix(b"\n") else {
        return Err(UsersError::BadUsers);
    };
    let users = read_lines(alloc, lines)?;
    let whole = is_table(alloc, users.as_slice())?;
    if !whole {
        return Err(UsersError::BadUsers);
    }
    Ok(Users::new(users))
}
