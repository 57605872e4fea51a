//! Steps are asked of files, and what they answer is compared with what they should.
use crate::model::{File, Model};
use crate::names::{Spot, piece};
use crate::steps::Step;
use crate::wrong::Wrong;
use fo_turning::{flush_turn, unlink_turn};
use fo_world::{FileError, FileOps};
use std::alloc::Global;
use test_requests::disks::On;
use test_requests::requests::{DIR, FILE, found, make, remove, rename, set_length, write};

/// Whether a run goes on.
#[derive(Clone, Copy, PartialEq, Eq)]
pub enum After {
    /// It does.
    Goes,
    /// A device failed.
    Cut,
}

/// The number that a file was given.
fn number(answer: Result<(u64, u64), FileError>) -> Result<u32, FileError> {
    match answer {
        Ok((path, _)) => match u32::try_from(path) {
            Ok(number) => Ok(number),
            Err(_) => Err(FileError::NoNumbers),
        },
        Err(why) => Err(why),
    }
}

/// The number of the file of a name.
pub fn number_of(alloc: Global, files: &mut On, at: Spot) -> Result<u32, FileError> {
    let text = at.text(alloc)?;
    number(found(alloc, files, at.way(), text.as_slice()))
}

/// Makes a file of a name with this mode, and answers its number.
pub fn make_at(alloc: Global, files: &mut On, at: Spot, mode: u32) -> Result<u32, FileError> {
    let text = at.text(alloc)?;
    number(make(alloc, files, at.way(), text.as_slice(), mode))
}

/// Removes the file of a name.
pub fn remove_at(alloc: Global, files: &mut On, at: Spot) -> Result<(), FileError> {
    let number = number_of(alloc, files, at)?;
    let trail = at.trail(alloc, number)?;
    remove(alloc, files, trail.as_slice())
}

/// Gives the file of a name another.
fn rename_at(alloc: Global, files: &mut On, from: Spot, to: Spot) -> Result<(), FileError> {
    let number = number_of(alloc, files, from)?;
    let trail = from.trail(alloc, number)?;
    let text = to.text(alloc)?;
    rename(alloc, files, trail.as_slice(), text.as_slice())
}

/// Writes the piece of a number into the file of a name.
fn write_at(
    alloc: Global,
    files: &mut On,
    at: Spot,
    offset: u64,
    number: u32,
) -> Result<(), FileError> {
    let file = number_of(alloc, files, at)?;
    let trail = at.trail(alloc, file)?;
    write(alloc, files, trail.as_slice(), offset, &piece(number))
}

/// Gives the file of a name another length.
fn cut_at(alloc: Global, files: &mut On, at: Spot, long: u64) -> Result<(), FileError> {
    let file = number_of(alloc, files, at)?;
    let trail = at.trail(alloc, file)?;
    set_length(alloc, files, trail.as_slice(), long)
}

/// Takes so many flushing turns.
fn flush(files: &mut On, turns: u32) -> Result<(), FileError> {
    for _ in 0..turns {
        if flush_turn(&mut files.on.cache).is_err() {
            return Err(FileError::MainWrite);
        }
    }
    Ok(())
}

/// Takes so many unlinking turns.
fn close(files: &mut On, turns: u32) -> Result<(), FileError> {
    for _ in 0..turns {
        if unlink_turn(&mut files.on.cache).is_err() {
            return Err(FileError::MainWrite);
        }
    }
    Ok(())
}

/// The number that a file was given, or 0.
fn ask(alloc: Global, files: &mut On, step: Step) -> Result<u32, FileError> {
    match step {
        Step::Make(at, false) => return make_at(alloc, files, at, FILE),
        Step::Make(at, true) => return make_at(alloc, files, at, DIR),
        Step::Remove(at) => remove_at(alloc, files, at)?,
        Step::Rename(from, to) => rename_at(alloc, files, from, to)?,
        Step::Write(at, offset, number) => write_at(alloc, files, at, offset, number)?,
        Step::Cut(at, long) => cut_at(alloc, files, at, long)?,
        Step::Settle => files.sync()?,
        Step::Flush(turns) => flush(files, turns)?,
        Step::Close(turns) => close(files, turns)?,
    }
    Ok(0)
}

/// What the rules say of a step.
#[derive(Clone, Copy, PartialEq, Eq)]
enum Rule {
    Granted,
    Exists,
    Absent,
}

/// What the rules say of a step, where the directories have what the model says.
fn rule_of(model: &Model, step: Step) -> Rule {
    match step {
        Step::Make(at, _) if model.has(at) => Rule::Exists,
        Step::Remove(at) | Step::Write(at, _, _) | Step::Cut(at, _) | Step::Rename(at, _)
            if !model.has(at) => { Rule::Absent }
        Step::Rename(_, to) if model.has(to) => Rule::Exists,
        _ => Rule::Granted,
    }
}

/// Whether an answer is as the rules say, or that the disk is full.
fn is_as(rule: Rule, answer: &Result<u32, FileError>) -> bool {
    match answer {
        Ok(_) => rule == Rule::Granted,
        Err(FileError::Exists) => rule == Rule::Exists,
        Err(FileError::Absent) => rule == Rule::Absent,
        Err(FileError::Full) => true,
        Err(_) => false,
    }
}

/// A file gets another name.
fn put_rename(model: &mut Model, from: Spot, to: Spot) {
    let file = model.at(from).file;
    model.put(from, None);
    model.put(to, file);
}

/// A piece of a file is written.
fn put_write(model: &mut Model, at: Spot, offset: u64, number: u32) {
    if let Some(file) = model.at(at).file {
        model.put(at, Some(file.written(offset, number)));
    }
}

/// A file gets another length.
fn put_cut(model: &mut Model, at: Spot, long: u64) {
    if let Some(file) = model.at(at).file {
        model.put(at, Some(file.cut(long)));
    }
}

/// The model as it is after a step, which made a file of this number if any.
fn put(model: &mut Model, step: Step, number: u32) {
    match step {
        Step::Make(at, is_dir) => model.put(at, Some(File::new(number, is_dir))),
        Step::Remove(at) => model.put(at, None),
        Step::Rename(from, to) => put_rename(model, from, to),
        Step::Write(at, offset, number) => put_write(model, at, offset, number),
        Step::Cut(at, long) => put_cut(model, at, long),
        Step::Settle => model.settle(),
        Step::Flush(_) | Step::Close(_) => {}
    }
}

/// The names of a step are touched.
fn touch(model: &mut Model, step: Step) {
    match step {
        Step::Make(at, _) | Step::Remove(at) | Step::Write(at, _, _) | Step::Cut(at, _) => {
            model.touch(at);
        }
        Step::Rename(from, to) => {
            model.touch(from);
            model.touch(to);
        }
        _ => {}
    }
}

/// Whether a device failed.
fn is_fault(answer: &Result<u32, FileError>) -> bool {
    matches!(
        answer,
        Err(FileError::MainRead | FileError::MainWrite | FileError::MainSync)
    )
}

/// Takes a step, and says whether the run goes on; or that the answer is wrong.
pub fn take(alloc: Global, files: &mut On, model: &mut Model, step: Step) -> Result<After, Wrong> {
    let answer = ask(alloc, files, step);
    if is_fault(&answer) {
        touch(model, step);
        return Ok(After::Cut);
    }
    if !is_as(rule_of(model, step), &answer) {
        return Err(Wrong::Answer);
    }
    if let Ok(number) = answer {
        put(model, step, number);
    }
    Ok(After::Goes)
}
