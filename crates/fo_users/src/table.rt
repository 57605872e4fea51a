//! The table: its lines, and what is asked of it.
ghost use Rattle.std.specs.Prelude.{◌≡◌};
ghost use Rattle.std.specs.List.{list_any};
ghost use Rattle.std.specs.Str.{bytes_eq};
ghost use Rattle.fo_users.specs.Table.{is_known};
ghost use Rattle.fo_users.specs.Rights.{lists, is_member, leads, is_leader, has_bit, may};

use crate::right::{Right, bit_of};
use fo_world::{Info, Name};
use std::marker::Model;

/// The names of a group's members.
#[derive(Debug, Drop)]
pub struct Members {
    names: Vec<Name>,
}

impl Model for Members {
    ghost use Rattle.std.specs.Prelude.{ℕ, List};

    ghost Value = { List (List ℕ) };

    ghost view = { λ m. m.names.items };
}

impl Members {
    /// The members of these names.
    pub fn new(names: Vec<Name>) -> Members
        ensures { result ≡ names.items }
    {
        Members { names }
    }

    /// The names.
    pub fn as_slice(&self) -> &[Name]
        ensures { result.now ≡ self.now }
    {
        self.names.as_slice()
    }

    /// Whether the name is one of them.
    pub fn contains(&self, name: &[u8]) -> bool
        ensures { result ≡ list_any (λ m. bytes_eq m name.now) self.now }
    {
        self.names.iter().any(|member| member.as_slice() == name)
    }
}

/// A line of the table: a user, who is a group as well. A group may have a leader.
#[derive(Debug, Drop)]
pub struct User {
    pub id: Name,
    pub name: Name,
    pub leader: Option<Name>,
    pub members: Members,
}

/// The table of users: its lines.
#[derive(Debug, Drop)]
pub struct Users {
    lines: Vec<User>,
}

impl Model for Users {
    ghost use Rattle.std.specs.Prelude.{List};
    ghost use Rattle.fo_users.specs.declared.table.User.{User};

    ghost Value = { List User };

    ghost view = { λ u. u.lines.items };
}

/// Whether a user of the table has this name.
pub fn is_known(lines: &[User], name: &[u8]) -> bool
    ensures { result ≡ is_known lines.now name.now }
{
    lines.iter().any(|line| line.name.as_slice() == name)
}

/// Whether the line is that of the group, and lists the user.
fn lists(line: &User, user: &[u8], group: &[u8]) -> bool
    ensures { result ≡ lists line.now user.now group.now }
{
    line.name.as_slice() == group && line.members.contains(user)
}

/// Whether a line of the group lists the user.
fn is_listed(lines: &[User], user: &[u8], group: &[u8]) -> bool
    ensures { result ≡ list_any (λ line. lists line user.now group.now) lines.now }
{
    lines.iter().any(|line| lists(line, user, group))
}

/// Whether the user is a member of the group.
fn is_member(lines: &[User], user: &[u8], group: &[u8]) -> bool
    ensures { result ≡ is_member lines.now user.now group.now }
{
    user == group || is_listed(lines, user, group)
}

/// Whether the line is that of the group, and the user leads it, who may be a member.
fn leads(line: &User, user: &[u8], group: &[u8], is_member: bool) -> bool
    ensures { result ≡ leads line.now user.now group.now is_member }
{
    if line.name.as_slice() != group {
        return false;
    }
    match &line.leader {
        Some(leader) => leader.as_slice() == user,
        None => is_member,
    }
}

impl Users {
    /// The table of these lines.
    pub fn new(lines: Vec<User>) -> Users
        ensures { result ≡ lines.items }
    {
        Users { lines }
    }

    /// Whether a user of the table has this name.
    pub fn known(&self, user: &Name) -> bool
        ensures { result ≡ is_known self.now user.now }
    {
        is_known(self.lines.as_slice(), user.as_slice())
    }

    /// Whether the user is a member of the group: of the one of his own name, or of one that lists him.
    pub fn member(&self, user: &Name, group: &Name) -> bool
        ensures { result ≡ is_member self.now user.now group.now }
    {
        is_member(self.lines.as_slice(), user.as_slice(), group.as_slice())
    }

    /// Whether the user leads the group: as its leader, or as a member where it has none.
    pub fn leader(&self, user: &Name, group: &Name) -> bool
        ensures { result ≡ is_leader self.now user.now group.now }
    {
        let is_member = self.member(user, group);
        self.lines.iter().any(|line| leads(line, user.as_slice(), group.as_slice(), is_member))
    }

    /// Whether the user has the right to the file.
    pub fn may(&self, user: &Name, node: &Info, right: Right) -> bool
        ensures { result ≡ may self.now user.now node.now right }
    {
        let bit = bit_of(right);
        has_bit(node.mode, bit)
            || (user.as_slice() == node.uid.as_slice() && has_bit(node.mode, bit * 64))
            || (has_bit(node.mode, bit * 8) && self.member(user, &node.gid))
    }
}

/// Whether the mode has this bit.
fn has_bit(mode: u32, bit: u32) -> bool
    ensures { result ≡ has_bit mode bit }
{
    mode & bit != 0
}
