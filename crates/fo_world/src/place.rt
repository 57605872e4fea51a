//! Places of files, and what is told of a file.
ghost use Rattle.std.specs.Prelude.{◌≡◌, ℕ, IfOk};

use crate::trail::Trail;
use crate::tree::Node;
use fo_base::Bytes;
use std::alloc::{AllocError, Global};

/// Which tree a place is in: the active one, the snapshot or the archive of an epoch, or a directory of dated names. Of these, year 0 is the root, and month-day 0 stands for a year.
#[derive(Clone, Copy, Debug, PartialEq, Eq)]
pub enum View {
    Active,
    Snap(u32),
    Archive(u32),
    Dated {
        archive: bool,
        year: u16,
        monthday: u16,
    },
}

/// A file, by the file numbers from the root of its view.
#[derive(Debug, Drop)]
pub struct Place {
    pub view: View,
    pub trail: Trail,
}

/// What is told of a file: its place, its name, its qid path, and the fields of its stat record (stat(5) of the Plan 9 manual).
#[derive(Debug, Drop)]
pub struct Info {
    pub place: Place,
    pub name: Bytes,
    pub path: u64,
    pub vers: u32,
    pub mode: u32,
    pub atime: u32,
    pub mtime: u32,
    pub length: u64,
    pub uid: Bytes,
    pub gid: Bytes,
    pub muid: Bytes,
}

/// What is to be changed of a file: each field that is given.
#[derive(Debug, Drop)]
pub struct Change {
    pub mode: Option<u32>,
    pub mtime: Option<u32>,
    pub length: Option<u64>,
    pub name: Option<Bytes>,
    pub gid: Option<Bytes>,
}

impl Place {
    ghost use Rattle.std.specs.Prelude.{◌≡◌, IfOk};

    /// A copy of this place.
    pub fn copy(&self, alloc: Global) -> Result<Place, AllocError>
        ensures { IfOk result (λ p. p ≡ self.now) }
    {
        Ok(Place {
            view: self.view,
            trail: self.trail.copy(alloc)?,
        })
    }
}

impl Place {
    ghost use Rattle.std.specs.Prelude.{◌≡◌, IfOk};
    ghost use Rattle.fo_world.specs.Step.{root_at, below};

    /// The root of a view.
    pub fn root(alloc: Global, view: View) -> Place
        ensures { result ≡ root_at view }
    {
        Place {
            view,
            trail: Trail::root(alloc),
        }
    }

    /// The place of a file directly below.
    pub fn below(&self, alloc: Global, number: u32) -> Result<Place, AllocError>
        ensures { IfOk result (λ p. p ≡ below self.now number) }
    {
        Ok(Place {
            view: self.view,
            trail: self.trail.below(alloc, number)?,
        })
    }
}

impl Change {
    ghost use Rattle.std.specs.Prelude.{◌≡◌, IfOk};

    /// A copy of this change.
    pub fn copy(&self, alloc: Global) -> Result<Change, AllocError>
        ensures { IfOk result (λ c. c ≡ self.now) }
    {
        Ok(Change {
            mode: self.mode,
            mtime: self.mtime,
            length: self.length,
            name: copy_given(alloc, &self.name)?,
            gid: copy_given(alloc, &self.gid)?,
        })
    }
}

// A copy of a name, where one is given.
fn copy_given(alloc: Global, name: &Option<Bytes>) -> Result<Option<Bytes>, AllocError>
    ensures { IfOk result (λ n. n ≡ name.now) }
{
    match name {
        None => Ok(None),
        Some(name) => Ok(Some(name.copy(alloc)?)),
    }
}

impl View {
    ghost use Rattle.std.specs.Prelude.{◌≡◌, ◌<◌, ◌^◌};
    ghost use Rattle.fo_world.specs.Step.{path_of, HasEpoch};

    /// The qid path of the file of this view with this number.
    pub fn path(self, number: u32) -> u64
        requires { HasEpoch self }
        ensures { result ≡ path_of self number }
    {
        match self {
            View::Active => u64::from(number),
            View::Snap(epoch) => u64::from(epoch) * 4294967296 + u64::from(number),
            View::Archive(epoch) => {
                9223372036854775808 + u64::from(epoch) * 4294967296 + u64::from(number)
            }
            View::Dated { archive, .. } => {
                if archive {
                    9223372036854775808 + u64::from(number)
                } else {
                    u64::from(number)
                }
            }
        }
    }
}

impl Info {
    ghost use Rattle.std.specs.Prelude.{◌≡◌, IfOk};
    ghost use Rattle.fo_world.specs.Step.{info_of, HasEpoch};

    /// What is told of a node with this name, at a place.
    pub fn of(alloc: Global, place: Place, name: &Bytes, node: &Node) -> Result<Info, AllocError>
        requires { HasEpoch place.view }
        ensures { IfOk result (λ i. i ≡ info_of place (name.now, node.now)) }
    {
        Ok(Info {
            path: place.view.path(node.number),
            name: name.copy(alloc)?,
            vers: node.vers,
            mode: node.mode,
            atime: node.atime,
            mtime: node.mtime,
            length: node.body.length(),
            uid: node.uid.copy(alloc)?,
            gid: node.gid.copy(alloc)?,
            muid: node.muid.copy(alloc)?,
            place,
        })
    }
}
