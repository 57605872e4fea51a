//! Images as a crash may leave them are looked at.
use crate::ask::remove_at;
use crate::model::{File, Model};
use crate::names::{DIRS, FAR, NAMES, Spot, piece};
use crate::wrong::Wrong;
use fo_base::Memory;
use fo_world::{FileError, FileOps, Place, Trail, View};
use std::alloc::Global;
use test_requests::disks::{Disks, On, checked, closed, opened};
use test_requests::requests::{FILE, found, make};

/// Whether these bytes stand at a place of the file of this trail.
fn stands(files: &mut On, trail: Vec<u32>, from: u64, wanted: &[u8]) -> bool {
    let mut into = [0; 12];
    let at = Place {
        view: View::Active,
        trail: Trail::new(trail),
    };
    match files.read(&at, from, &mut into) {
        Ok(_) => into.as_slice() == wanted,
        Err(_) => false,
    }
}

/// Whether the piece of this number stands at a place of the file of this number.
fn has_piece(alloc: Global, files: &mut On, at: Spot, file: u32, from: u64, number: u32) -> bool {
    match at.trail(alloc, file) {
        Ok(trail) => stands(files, trail, from, &piece(number)),
        Err(_) => false,
    }
}

/// Whether a file has its bytes.
fn has_bytes(alloc: Global, files: &mut On, at: Spot, file: File) -> bool {
    (file.long == 0 || has_piece(alloc, files, at, file.number, 0, file.near))
        && (file.long <= FAR || has_piece(alloc, files, at, file.number, FAR, file.far))
}

/// The number and the length of the file of a name, where there is one.
fn told(alloc: Global, files: &mut On, at: Spot) -> Result<Option<(u64, u64)>, FileError> {
    let text = at.text(alloc)?;
    match found(alloc, files, at.way(), text.as_slice()) {
        Ok(told) => Ok(Some(told)),
        Err(FileError::Absent) => Ok(None),
        Err(why) => Err(why),
    }
}

/// A name has the file that it should have.
fn has_file(alloc: Global, files: &mut On, at: Spot, file: Option<File>) -> Result<(), Wrong> {
    let wanted = match file {
        Some(file) => Some((u64::from(file.number), file.long)),
        None => None,
    };
    match told(alloc, files, at) {
        Ok(told) => if told == wanted {
            Ok(())
        } else {
            Err(Wrong::Name(at))
        },
        Err(_) => Err(Wrong::Name(at)),
    }
}

/// A name that was used and is not touched has what it should.
fn is_kept(alloc: Global, files: &mut On, model: &Model, at: Spot) -> Result<(), Wrong> {
    let slot = model.at(at);
    if slot.touched || !slot.used {
        return Ok(());
    }
    has_file(alloc, files, at, slot.file)?;
    match slot.file {
        Some(file) => if has_bytes(alloc, files, at, file) {
            Ok(())
        } else {
            Err(Wrong::Bytes(at))
        },
        None => Ok(()),
    }
}

/// All names of a directory that were used and are not touched have what they should.
fn are_kept(alloc: Global, files: &mut On, model: &Model, dir: u32) -> Result<(), Wrong> {
    for name in 0..NAMES {
        is_kept(alloc, files, model, Spot { dir, name })?;
    }
    Ok(())
}

/// A new file is made in the root and settled, where the disk isn't full.
fn takes_file(alloc: Global, files: &mut On) -> Result<(), Wrong> {
    match make(alloc, files, &[], b"fresh", FILE) {
        Ok(_) => match files.sync() {
            Ok(()) => Ok(()),
            Err(FileError::Full) => Ok(()),
            Err(_) => Err(Wrong::Fixed),
        },
        Err(FileError::Full) => Ok(()),
        Err(_) => Err(Wrong::Fixed),
    }
}

/// A name stands at most once in its directory: where a file of it is removed, there is no other.
fn is_once(alloc: Global, files: &mut On, at: Spot) -> Result<(), Wrong> {
    match remove_at(alloc, files, at) {
        Ok(()) => match told(alloc, files, at) {
            Ok(None) => Ok(()),
            _ => Err(Wrong::Twice(at)),
        },
        Err(FileError::Absent | FileError::Full) => Ok(()),
        Err(_) => Err(Wrong::Twice(at)),
    }
}

/// Each name of a directory that was touched stands at most once in it.
fn are_once(alloc: Global, files: &mut On, model: &Model, dir: u32) -> Result<(), Wrong> {
    for name in 0..NAMES {
        let at = Spot { dir, name };
        if model.at(at).touched {
            is_once(alloc, files, at)?;
        }
    }
    Ok(())
}

/// All that was not touched is there, and no name twice; and a new file is made.
fn is_right(alloc: Global, files: &mut On, model: &Model) -> Result<(), Wrong> {
    for dir in 0..DIRS {
        are_kept(alloc, files, model, dir)?;
    }
    takes_file(alloc, files)?;
    for dir in 0..DIRS {
        are_once(alloc, files, model, dir)?;
    }
    Ok(())
}

/// What files leave that are closed now passes the check.
fn ends(alloc: Global, files: On, so_far: Result<(), Wrong>) -> Result<(), Wrong> {
    let Some(left) = closed(files) else {
        return Err(Wrong::After);
    };
    so_far?;
    match left.image(0, 0) {
        Ok(mut disks) => if checked(alloc, &mut disks).is_some() {
            Ok(())
        } else {
            Err(Wrong::After)
        },
        Err(_) => Err(Wrong::Lost),
    }
}

/// An image passes the check, opens, and has what it should.
pub fn look(alloc: Global, disks: Result<Disks, Memory>, model: &Model) -> Result<(), Wrong> {
    let Ok(mut disks) = disks else {
        return Err(Wrong::Lost);
    };
    if checked(alloc, &mut disks).is_none() {
        return Err(Wrong::Unsound);
    }
    match opened(alloc, disks) {
        Some(mut files) => {
            let so_far = is_right(alloc, &mut files, model);
            ends(alloc, files, so_far)
        }
        None => Err(Wrong::Closed),
    }
}
