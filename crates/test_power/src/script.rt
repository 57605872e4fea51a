//! The steps of the run.
use fo_base::Memory;
use fo_world::{FileError, FileOps};
use std::alloc::Global;
use test_requests::disks::{Disks, On, formatted};
use test_requests::requests::{FILE, found, make, remove, write};

/// How many steps there are.
pub const STEPS: u32 = 8;

/// How many steps are granted once the first file is settled.
pub const FIRST: u32 = 3;

/// How many steps are granted once the second file is settled.
pub const SECOND: u32 = 6;

/// What is left of an answer whose value doesn't matter.
pub fn done(answer: Result<(u64, u64), FileError>) -> Result<(), FileError> {
    match answer {
        Ok(_) => Ok(()),
        Err(why) => Err(why),
    }
}

/// The number of the file of a name in the root.
pub fn number_of(alloc: Global, files: &mut On, name: &[u8]) -> Result<u32, FileError> {
    match found(alloc, files, &[], name) {
        Ok((path, _)) => match u32::try_from(path) {
            Ok(number) => Ok(number),
            Err(_) => Err(FileError::NoNumbers),
        },
        Err(why) => Err(why),
    }
}

/// Writes "hello" into the file of a name in the root.
fn write_to(alloc: Global, files: &mut On, name: &[u8]) -> Result<(), FileError> {
    match number_of(alloc, files, name) {
        Ok(number) => write(alloc, files, &[number], 0, b"hello"),
        Err(why) => Err(why),
    }
}

/// Removes the file of a name in the root.
pub fn remove_from(alloc: Global, files: &mut On, name: &[u8]) -> Result<(), FileError> {
    match number_of(alloc, files, name) {
        Ok(number) => remove(alloc, files, &[number]),
        Err(why) => Err(why),
    }
}

/// Takes the step with this number, counted from 0.
pub fn step(alloc: Global, files: &mut On, number: u32) -> Result<(), FileError> {
    match number {
        0 => done(make(alloc, files, &[], b"f", FILE)),
        1 => write_to(alloc, files, b"f"),
        2 => files.sync(),
        3 => done(make(alloc, files, &[], b"g", FILE)),
        4 => write_to(alloc, files, b"g"),
        5 => files.sync(),
        6 => remove_from(alloc, files, b"g"),
        _ => files.sync(),
    }
}

/// How many steps are granted, up to the first that is refused.
pub fn run(alloc: Global, files: &mut On) -> u32 {
    for at in 0..STEPS {
        if step(alloc, files, at).is_err() {
            return at;
        }
    }
    STEPS
}

/// Formatted disks of which the main one fails at this call, counted from 0. Formatting makes the first six, and opening the next four.
pub fn failing(alloc: Global, call: u64) -> Result<Disks, Memory> {
    let fails = vec![in alloc; call]?;
    formatted(alloc, fails)
}
