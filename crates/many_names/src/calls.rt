//! Calls on the root directory.
ghost use Rattle.std.specs.Prelude.{◌≡◌, None, IfSome};
ghost use Rattle.fo_world.specs.Limits.{IsName};

use crate::disks::On;
use crate::names::{Model, Standing, user};
use fo_base::Bytes;
use fo_world::{Change, FileError, FileOps, Place, Trail, View};
use std::alloc::Global;

/// What is done to a directory.
#[derive(Clone, Copy, Debug, PartialEq, Eq)]
pub enum Call {
    Make(u32),
    Rename(u32),
    Remove(u32),
    Settle,
}

/// The place of the file of this number in the root.
fn place(alloc: Global, path: u64) -> Result<Place, FileError> {
    match u32::try_from(path) {
        Ok(number) => {
            let root = Place::root(alloc, View::Active);
            Ok(root.below(alloc, number)?)
        }
        Err(_) => Err(FileError::NoNumbers),
    }
}

/// The place of the file of a name.
fn place_of(alloc: Global, files: &mut On, name: &Bytes) -> Result<Place, FileError> {
    let root = Place::root(alloc, View::Active);
    match files.find(&root, name.as_slice()) {
        Ok(told) => place(alloc, told.path),
        Err(why) => Err(why),
    }
}

/// Makes an empty file of a name.
fn make(alloc: Global, files: &mut On, name: &Bytes) -> Result<(), FileError>
    requires { IsName name.now }
{
    let root = Place::root(alloc, View::Active);
    let who = user(alloc)?;
    match files.create(&root, name, 0o644, &who, &who, &who, 100) {
        Ok(_) => Ok(()),
        Err(why) => Err(why),
    }
}

/// Removes the file at a place.
fn remove(alloc: Global, files: &mut On, at: &Place) -> Result<(), FileError> {
    let who = user(alloc)?;
    if at.trail.as_slice().is_empty() {
        return Err(FileError::IsDir);
    }
    files.remove(at, &who, 101)
}

/// A change of the name alone.
fn to_name(name: Bytes) -> Change
    requires { IsName name }
    ensures name { IfSome result.name IsName }
    ensures gid { result.gid ≡ None }
{
    Change {
        mode: None,
        mtime: None,
        length: None,
        name: Some(name),
        gid: None,
    }
}

/// Gives the file at a place another name.
fn rename(alloc: Global, files: &mut On, at: &Place, name: Bytes) -> Result<(), FileError>
    requires { IsName name }
{
    let who = user(alloc)?;
    if at.trail.as_slice().is_empty() {
        return Err(FileError::IsDir);
    }
    files.change(at, &to_name(name), &who, 102)
}

/// The name of a number comes to stand otherwise.
fn turn(
    alloc: Global,
    files: &mut On,
    old: Option<Bytes>,
    new: Option<Bytes>,
) -> Result<(), FileError>
    requires { IfSome new IsName }
{
    match (old, new) {
        (None, None) => Ok(()),
        (None, Some(name)) => make(alloc, files, &name),
        (Some(name), None) => {
            let at = place_of(alloc, files, &name)?;
            remove(alloc, files, &at)
        }
        (Some(name), Some(other)) => {
            let at = place_of(alloc, files, &name)?;
            rename(alloc, files, &at, other)
        }
    }
}

impl Call {
    /// The number of the name that is changed, and how it stands afterwards.
    pub fn outcome(self) -> Option<(u32, Standing)> {
        match self {
            Call::Make(number) => Some((number, Standing::Short)),
            Call::Rename(number) => Some((number, Standing::Long)),
            Call::Remove(number) => Some((number, Standing::Absent)),
            Call::Settle => None,
        }
    }

    /// Makes the call on files whose directory is as the model says.
    pub fn ask(self, alloc: Global, files: &mut On, model: &Model) -> Result<(), FileError> {
        let Some((number, standing)) = self.outcome() else {
            return files.sync();
        };
        let old = model.text(alloc, number, model.of(number))?;
        let new = model.text(alloc, number, standing)?;
        turn(alloc, files, old, new)
    }

    /// The model as it is after the call.
    pub fn put(self, model: &mut Model) {
        if let Some((number, standing)) = self.outcome() {
            model.set(number, standing);
        }
    }
}
