//! The directory is compared with what it should be.
ghost use Rattle.std.specs.Prelude.{◌<◌};

use crate::disks::On;
use crate::names::{Model, Standing};
use fo_base::Bytes;
use fo_world::{FileError, FileOps, Place, View};
use std::alloc::Global;

/// Whether the next name behind this one is the wanted one.
fn comes_next(
    files: &mut On,
    root: &Place,
    after: Option<&Bytes>,
    wanted: &Bytes,
) -> Result<bool, FileError> {
    match files.next_name(root, after) {
        Ok(Some(told)) => Ok(told.name.as_slice() == wanted.as_slice()),
        Ok(None) => Ok(false),
        Err(why) => Err(why),
    }
}

/// Whether no name comes behind this one.
fn ends(files: &mut On, root: &Place, after: Option<&Bytes>) -> Result<bool, FileError> {
    match files.next_name(root, after) {
        Ok(told) => Ok(told.is_none()),
        Err(why) => Err(why),
    }
}

/// How many names are listed from the first on, where they are just those that should be there, in ascending order. None where they are not.
pub fn listed(alloc: Global, files: &mut On, model: &Model) -> Result<Option<u32>, FileError> {
    let root = Place::root(alloc, View::Active);
    let mut after: Option<Bytes> = None;
    let mut names: u32 = 0;
    for number in 0..model.many() {
        if let Some(name) = model.text(alloc, number, model.of(number))? {
            if !comes_next(files, &root, after.as_ref(), &name)? {
                return Ok(None);
            }
            after = Some(name);
            names = names.saturating_add(1);
        }
    }
    if ends(files, &root, after.as_ref())? {
        Ok(Some(names))
    } else {
        Ok(None)
    }
}

/// Whether a file of a name is found.
fn is_there(alloc: Global, files: &mut On, name: &Bytes) -> Result<bool, FileError> {
    let root = Place::root(alloc, View::Active);
    match files.find(&root, name.as_slice()) {
        Ok(told) => Ok(told.name.as_slice() == name.as_slice()),
        Err(FileError::Absent) => Ok(false),
        Err(why) => Err(why),
    }
}

/// Whether the text of a number's name is found just where it stands so.
fn is_right(
    alloc: Global,
    files: &mut On,
    model: &Model,
    number: u32,
    standing: Standing,
) -> Result<bool, FileError> {
    match model.text(alloc, number, standing)? {
        Some(name) => Ok(is_there(alloc, files, &name)? == (model.of(number) == standing)),
        None => Ok(true),
    }
}

/// Whether of every so many numbers both texts are found just where they should be.
pub fn found(alloc: Global, files: &mut On, model: &Model, every: u32) -> Result<bool, FileError>
    requires { 0 < every }
{
    for number in 0..model.many() {
        if number % every == 0
            && !(is_right(alloc, files, model, number, Standing::Short)?
                && is_right(alloc, files, model, number, Standing::Long)?)
        {
            return Ok(false);
        }
    }
    Ok(true)
}
