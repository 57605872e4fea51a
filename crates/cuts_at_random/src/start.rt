//! Disks that rounds begin with.
use crate::ask::make_at;
use crate::model::{File, Model};
use crate::names::{LONG, NAMES, Spot};
use fo_world::{FileError, FileOps};
use std::alloc::Global;
use test_requests::disks::{Left, On, closed, formatted, opened};
use test_requests::requests::{DIR, FILE, make};

/// Settled disks, and what they have.
#[derive(Drop)]
pub struct Start {
    pub left: Left,
    pub model: Model,
}

/// Disks with three directories and few files, with two leaves of records in two directories, and with 100 files in one.
#[derive(Drop)]
pub struct Starts {
    pub few: Start,
    pub long: Start,
    pub many: Start,
}

/// The names of a directory from one number to another.
#[derive(Clone, Copy)]
struct Range {
    dir: u32,
    from: u32,
    to: u32,
}

/// Makes a file of each name.
fn fill(alloc: Global, files: &mut On, model: &mut Model, range: Range) -> Result<(), FileError> {
    for name in range.from..range.to {
        let at = Spot {
            dir: range.dir,
            name,
        };
        let number = make_at(alloc, files, at, FILE)?;
        model.put(at, Some(File::new(number, false)));
    }
    Ok(())
}

/// Makes the directories and files of two ranges, and settles them.
fn made(
    alloc: Global,
    files: &mut On,
    model: &mut Model,
    one: Range,
    other: Range,
) -> Result<(), FileError> {
    make(alloc, files, &[], b"dir", DIR)?;
    make(alloc, files, &[1], b"dir", DIR)?;
    fill(alloc, files, model, one)?;
    fill(alloc, files, model, other)?;
    files.sync()?;
    model.settle();
    Ok(())
}

/// Fresh files.
fn fresh(alloc: Global) -> Option<On> {
    match formatted(alloc, Vec::new(alloc)) {
        Ok(disks) => opened(alloc, disks),
        Err(_) => None,
    }
}

/// What files leave where all went well.
fn left(files: On, done: bool) -> Option<Left> {
    let left = closed(files)?;
    if done { Some(left) } else { None }
}

/// Disks with files of these names.
fn started(alloc: Global, one: Range, other: Range) -> Option<Start> {
    let mut model = Model::new(alloc).ok()?;
    let mut files = fresh(alloc)?;
    let done = made(alloc, &mut files, &mut model, one, other).is_ok();
    let left = left(files, done)?;
    Some(Start { left, model })
}

/// So many long names of a directory.
fn long(dir: u32, many: u32) -> Range {
    Range {
        dir,
        from: 0,
        to: many,
    }
}

/// All disks that rounds begin with.
pub fn all_starts(alloc: Global) -> Option<Starts> {
    let few = started(alloc, long(0, 3), long(1, 3))?;
    let more = started(alloc, long(0, 34), long(1, 34))?;
    let short = Range {
        dir: 1,
        from: LONG,
        to: NAMES,
    };
    let many = started(alloc, long(0, 25), short)?;
    Some(Starts {
        few,
        long: more,
        many,
    })
}
