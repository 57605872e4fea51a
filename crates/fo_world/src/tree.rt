//! Trees of files.
ghost use Rattle.std.specs.Prelude.{◌≡◌, ℕ, ◌+◌, ◌<◌, ◌≤◌, List, length, is_ok, IfErr, MatchOption, Some, None, if◌then◌else◌};
ghost use Rattle.std.specs.Option.{option_copied};
ghost use Rattle.fo_world.specs.Tree.{along, comes_before};
ghost use Rattle.fo_world.specs.Step.{is_above, with_fields};
ghost use Rattle.fo_world.specs.Ascending.{Ascending};
ghost use Rattle.fo_world.specs.Places.{place_numbered, place_named, place_from, place_for, place_above, renamed_at};
ghost use Rattle.fo_world.specs.declared.tree.Node.{Node};

use crate::alter::{Alter, Fields};
use crate::error::FileError;
use fo_base::Bytes;
use fo_sparse::Plain;
use std::alloc::Global;
use std::marker::Model;

/// A file or a directory: its number, the fields of its stat record (stat(5) of the Plan 9 manual), and what is in it.
#[cycle(tree)]
#[derive(Drop)]
pub struct Node {
    pub number: u32,
    pub vers: u32,
    pub mode: u32,
    pub atime: u32,
    pub mtime: u32,
    pub uid: Bytes,
    pub gid: Bytes,
    pub muid: Bytes,
    pub body: Body,
}

/// The bytes of a file, or the names of a directory.
#[cycle(tree)]
#[derive(Drop)]
pub enum Body {
    File(Plain),
    Dir(Names),
}

/// The names of a directory, in ascending order of their bytes, with what they stand for.
#[cycle(tree)]
#[derive(Drop)]
pub struct Names {
    entries: Vec<(Bytes, Node)>,
}

impl Model for Names {
    ghost use Rattle.fo_world.specs.Names as plain;

    ghost Value = { plain.Names };

    ghost coded = { plain.names_code };

    ghost use Rattle.fo_world.specs.Tree.{names_of};

    ghost view = { λ a. names_of a.entries.items };

    ghost use Rattle.fo_world.specs.Ascending.{Ascending};

    ghost invariant = { λ a. Ascending a.entries.items };

    ghost size = { plain.count };

    ghost use Rattle.fo_world.specs.Falls.{names_fall};
    ghost use Rattle.std.proofs.Common.{arith};

    ghost size_decreases = { λ a h. Prim.omega (arith, names_fall a.entries.items) };
}

/// A tree of files, as the active one or that of a snapshot.
#[derive(Drop)]
pub struct Tree {
    pub root: Node,
}

// The index of the first file with this number.
fn place_numbered(entries: &[(Bytes, Node)], number: u32) -> Option<usize>
    ensures { MatchOption result (length entries.now ≤ place_numbered number entries.now) (λ i. (i ≡ place_numbered number entries.now) × (i < length entries.now)) }
{
    for (i, entry) in entries.iter().enumerate() {
        if entry.1.number == number {
            return Some(i);
        }
    }
    None
}

// Whether a name comes before another.
fn comes_before(name: &[u8], other: &[u8]) -> bool
    ensures { result ≡ comes_before name.now other.now }
{
    name.cmp(&other).is_lt()
}

// The index of the first name that doesn't come before this one, by a binary search.
fn place_from(entries: &[(Bytes, Node)], name: &[u8]) -> usize
    requires { Ascending entries.now }
    ensures place { result ≡ place_from name.now entries.now }
    ensures within { result ≤ length entries.now }
{
    entries.partition_point(|entry| comes_before(entry.0.as_slice(), name))
}

// The index of the first file with this name.
fn place_named(entries: &[(Bytes, Node)], name: &[u8]) -> Option<usize>
    requires { Ascending entries.now }
    ensures { MatchOption result (length entries.now ≤ place_named name.now entries.now) (λ i. (i ≡ place_named name.now entries.now) × (i < length entries.now)) }
{
    let i = place_from(entries, name);
    if i < entries.len() && entries[i].0.as_slice() == name {
        Some(i)
    } else {
        None
    }
}

// Where a new name goes, by a binary search.
fn place_for(entries: &[(Bytes, Node)], name: &[u8]) -> usize
    requires { Ascending entries.now }
    ensures place { result ≡ place_for name.now entries.now }
    ensures within { result ≤ length entries.now }
{
    entries.partition_point(|entry| !comes_before(name, entry.0.as_slice()))
}

// Where the first name above the one given stands, or of all where none is given.
fn place_above(entries: &[(Bytes, Node)], after: Option<&Bytes>) -> usize
    requires { Ascending entries.now }
    ensures place { result ≡ place_above (option_copied after.entry) entries.now }
    ensures within { result ≤ length entries.now }
{
    match after {
        None => 0,
        Some(after) => place_for(entries, after.as_slice()),
    }
}

/// Whether a name comes after the one given, where one is given.
pub fn is_above(after: Option<&Bytes>, name: &[u8]) -> bool
    ensures { result ≡ is_above (option_copied after.entry) name.now }
{
    match after {
        None => true,
        Some(after) => comes_before(after.as_slice(), name),
    }
}

// Lets a name and its node go.
fn discard(entry: (Bytes, Node)) {
    let _ = entry;
}

// Changes the file at an index and gives it another name.
fn rename_at(
    entries: &mut Vec<(Bytes, Node)>,
    i: usize,
    name: Bytes,
    fields: Fields,
) -> Result<(), FileError>
    requires index { i < length entries.old.items }
    requires ascending { Ascending entries.old.items }
    ensures after { (d : List ℕ × Node) → entries.new.items ≡ (if is_ok result then renamed_at entries.old.items i name (with_fields fields.what fields.who fields.now) d else entries.old.items) }
    ensures memory { IfErr result (λ e. e ≡ FileError.Memory) }
{
    entries.reserve(1)?;
    let (_, mut node) = entries.remove(i);
    fields.put(&mut node);
    let i = place_for(entries.as_slice(), name.as_slice());
    match entries.insert(i, (name, node)) {
        Ok(()) => Ok(()),
        Err(_) => unreachable!(),
    }
}

impl Names {
    ghost use Rattle.std.specs.Prelude.{◌≡◌, is_ok, IfErr, Option, Some, None, MatchOption, if◌then◌else◌};
    ghost use Rattle.std.specs.Option.{option_copied};
    ghost use Rattle.fo_world.specs.Names.{no_names};
    ghost use Rattle.fo_world.specs.Pairs.{pair_copied};
    ghost use Rattle.fo_world.specs.Tree.{child, named, name_count, put_name, without, rename, change_first, change_along};
    ghost use Rattle.fo_world.specs.Step.{next_above, with_fields};

    /// No names.
    pub fn new(alloc: Global) -> Names
        ensures { result ≡ no_names }
    {
        Names {
            entries: Vec::new(alloc),
        }
    }

    /// How many names there are.
    pub fn len(&self) -> usize
        ensures { result ≡ name_count self.now }
    {
        self.entries.as_slice().len()
    }

    /// What a name stands for.
    pub fn named(&self, name: &[u8]) -> Option<(&Bytes, &Node)>
        ensures pair { pair_copied result ≡ named name.now self.now }
        ensures found { MatchOption result (named name.now self.now ≡ None) (λ f. named name.now self.now ≡ Some (f.0.now, f.1.now)) }
    {
        match place_named(self.entries.as_slice(), name) {
            Some(i) => {
                let entry = &self.entries[i];
                Some((&entry.0, &entry.1))
            }
            None => None,
        }
    }

    /// The least name above the one given, or of all where none is given.
    pub fn next_above(&self, after: Option<&Bytes>) -> Option<(&Bytes, &Node)>
        ensures { pair_copied result ≡ next_above (option_copied after.entry) self.now }
    {
        let i = place_above(self.entries.as_slice(), after);
        if i < self.entries.len() {
            let entry = &self.entries[i];
            Some((&entry.0, &entry.1))
        } else {
            None
        }
    }

    // The file with this number, with its name.
    fn numbered(&self, number: u32) -> Option<(&Bytes, &Node)>
        ensures { MatchOption result (child number (Body.Dir self.now) ≡ None) (λ f. child number (Body.Dir self.now) ≡ Some (f.0.now, f.1.now)) }
    {
        for entry in self.entries.as_slice() {
            if entry.1.number == number {
                return Some((&entry.0, &entry.1));
            }
        }
        None
    }

    /// Adds a name, before the first that comes after it.
    pub fn insert(&mut self, name: Bytes, node: Node) -> Result<(), FileError>
        ensures after { self.new ≡ (if is_ok result then put_name name node self.old else self.old) }
        ensures memory { IfErr result (λ e. e ≡ FileError.Memory) }
    {
        let i = place_for(self.entries.as_slice(), name.as_slice());
        self.entries.insert(i, (name, node))?;
        Ok(())
    }

    /// Takes a name out.
    pub fn take_out(&mut self, name: &[u8])
        ensures { self.new ≡ without name.now self.old }
    {
        match place_named(self.entries.as_slice(), name) {
            Some(i) => discard(self.entries.remove(i)),
            None => {}
        }
    }

    /// Changes a file and gives it another name.
    pub fn rename(&mut self, old: &[u8], name: Bytes, fields: Fields) -> Result<(), FileError>
        ensures after { self.new ≡ (if is_ok result then rename old.now name (with_fields fields.what fields.who fields.now) self.old else self.old) }
        ensures memory { IfErr result (λ e. e ≡ FileError.Memory) }
    {
        match place_named(self.entries.as_slice(), old) {
            Some(i) => rename_at(&mut self.entries, i, name, fields),
            None => Ok(()),
        }
    }

    #[cycle(change)]
    fn change_first<C: Alter>(
        &mut self,
        number: u32,
        rest: &[u32],
        change: C,
    ) -> Result<(), FileError>
        ensures after { self.new ≡ (if is_ok result then change_first number (change_along rest.now (C.after change)) self.old else self.old) }
        ensures memory { IfErr result (λ e. e ≡ FileError.Memory) }
    {
        match place_numbered(self.entries.as_slice(), number) {
            Some(i) => self.entries[i].1.change(rest, change),
            None => Ok(()),
        }
    }
}

impl Node {
    ghost use Rattle.std.specs.Prelude.{◌≡◌, is_ok, IfErr, if◌then◌else◌};
    ghost use Rattle.fo_world.specs.Tree.{change_along, touched};

    /// Changes the file that a trail leads to, and does nothing where it leads nowhere.
    #[cycle(change)]
    pub fn change<C: Alter>(&mut self, trail: &[u32], change: C) -> Result<(), FileError>
        ensures after { self.new ≡ (if is_ok result then change_along trail.now (C.after change) self.old else self.old) }
        ensures memory { IfErr result (λ e. e ≡ FileError.Memory) }
    {
        if trail.len() == 0 {
            change.alter(self)
        } else {
            self.body.change_child(trail[0], &trail[1..], change)
        }
    }

    /// Notes that someone changed it at a moment.
    pub fn touch(&mut self, who: Bytes, now: u32)
        ensures { self.new ≡ touched who now self.old }
    {
        self.vers = self.vers.wrapping_add(1);
        self.mtime = now;
        self.muid = who;
    }
}

impl Body {
    ghost use Rattle.std.specs.Prelude.{◌≡◌, ◌+◌, ◌≤◌, ◌^◌, ◌<◌, length, is_ok, IfErr, if◌then◌else◌, MatchOption, MatchResult, is_some, Some, None, Ok, Err};
    ghost use Rattle.fo_sparse.specs.Written.{written, resized};
    ghost use Rattle.fo_world.specs.Tree.{child, named, length_of, has_names, is_dir, change_names, change_bytes, change_first, change_along, put_name, without, rename};
    ghost use Rattle.fo_world.specs.Step.{as_dir, as_file, inside, with_fields};

    /// A file's length in bytes; a directory has none.
    pub fn length(&self) -> u64
        ensures { result ≡ length_of self.now }
    {
        match self {
            Body::File(bytes) => bytes.len(),
            Body::Dir(_) => 0,
        }
    }

    /// Whether it is a directory.
    pub fn is_dir(&self) -> bool
        ensures { result ≡ is_dir self.now }
    {
        match self {
            Body::File(_) => false,
            Body::Dir(_) => true,
        }
    }

    /// Whether it is a directory that has a name.
    pub fn has_names(&self) -> bool
        ensures { result ≡ has_names self.now }
    {
        match self {
            Body::File(_) => false,
            Body::Dir(names) => names.len() > 0,
        }
    }

    /// Whether it is a directory that has this name.
    pub fn has_name(&self, name: &[u8]) -> bool
        ensures { result ≡ is_some (named name.now (inside self.now)) }
    {
        match self {
            Body::File(_) => false,
            Body::Dir(names) => names.named(name).is_some(),
        }
    }

    /// The bytes of a file.
    pub fn as_file(&self) -> Result<&Plain, FileError>
        ensures { MatchResult result (λ bytes. as_file self.now ≡ Ok bytes.now) (λ e. as_file self.now ≡ Err e) }
    {
        match self {
            Body::File(bytes) => Ok(bytes),
            Body::Dir(_) => Err(FileError::IsDir),
        }
    }

    /// The names of a directory.
    pub fn as_dir(&self) -> Result<&Names, FileError>
        ensures { MatchResult result (λ names. as_dir self.now ≡ Ok names.now) (λ e. as_dir self.now ≡ Err e) }
    {
        match self {
            Body::File(_) => Err(FileError::NotDir),
            Body::Dir(names) => Ok(names),
        }
    }

    /// The file with this number directly below, with its name.
    pub fn child(&self, number: u32) -> Option<(&Bytes, &Node)>
        ensures { MatchOption result (child number self.now ≡ None) (λ f. child number self.now ≡ Some (f.0.now, f.1.now)) }
    {
        match self {
            Body::File(_) => None,
            Body::Dir(names) => names.numbered(number),
        }
    }

    /// Writes the bytes of a file.
    pub fn write(&mut self, offset: u64, bytes: &[u8]) -> Result<(), FileError>
        requires { offset + length bytes.now ≤ 2 ^ 47 }
        ensures after { self.new ≡ (if is_ok result then change_bytes (λ old. written old offset bytes.now) self.old else self.old) }
        ensures memory { IfErr result (λ e. e ≡ FileError.Memory) }
    {
        match self {
            Body::File(plain) => Ok(plain.write(offset, bytes)?),
            Body::Dir(_) => Ok(()),
        }
    }

    /// Gives a file another length.
    pub fn set_len(&mut self, len: u64)
        requires { len ≤ 2 ^ 47 }
        ensures { self.new ≡ change_bytes (λ old. resized old len) self.old }
    {
        match self {
            Body::File(plain) => plain.set_len(len),
            Body::Dir(_) => {}
        }
    }

    /// Adds a name to a directory.
    pub fn insert(&mut self, name: Bytes, node: Node) -> Result<(), FileError>
        ensures after { self.new ≡ (if is_ok result then change_names (put_name name node) self.old else self.old) }
        ensures memory { IfErr result (λ e. e ≡ FileError.Memory) }
    {
        match self {
            Body::File(_) => Ok(()),
            Body::Dir(names) => names.insert(name, node),
        }
    }

    /// Takes a name out of a directory.
    pub fn take_out(&mut self, name: &[u8])
        ensures { self.new ≡ change_names (without name.now) self.old }
    {
        match self {
            Body::File(_) => {}
            Body::Dir(names) => names.take_out(name),
        }
    }

    /// Changes a file of a directory and gives it another name.
    pub fn rename(&mut self, old: &[u8], name: Bytes, fields: Fields) -> Result<(), FileError>
        ensures after { self.new ≡ (if is_ok result then change_names (rename old.now name (with_fields fields.what fields.who fields.now)) self.old else self.old) }
        ensures memory { IfErr result (λ e. e ≡ FileError.Memory) }
    {
        match self {
            Body::File(_) => Ok(()),
            Body::Dir(names) => names.rename(old, name, fields),
        }
    }

    #[cycle(change)]
    fn change_child<C: Alter>(
        &mut self,
        number: u32,
        rest: &[u32],
        change: C,
    ) -> Result<(), FileError>
        ensures after { self.new ≡ (if is_ok result then change_names (change_first number (change_along rest.now (C.after change))) self.old else self.old) }
        ensures memory { IfErr result (λ e. e ≡ FileError.Memory) }
    {
        match self {
            Body::File(_) => Ok(()),
            Body::Dir(names) => names.change_first(number, rest, change),
        }
    }
}

/// The file that a trail of file numbers leads to from a node, with its name.
pub fn follow<'a>(name: &'a Bytes, root: &'a Node, trail: &[u32]) -> Option<(&'a Bytes, &'a Node)>
    ensures { MatchOption result (along trail.now (name.now, root.now) ≡ None) (λ f. along trail.now (name.now, root.now) ≡ Some (f.0.now, f.1.now)) }
{
    let mut name = name;
    let mut node = root;
    for number in trail {
        let (below, file) = node.body.child(*number)?;
        name = below;
        node = file;
    }
    Some((name, node))
}
