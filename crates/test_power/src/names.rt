//! A name goes from one leaf of a directory's records to another, and the power is cut at each moment until that is settled.
//!
//! The root has a leaf of 27 files and one of three, all settled. Then its name is taken from a file in one leaf, and given to one in the other.
use crate::images::are_sound;
use crate::moments::{Moment, moments, seen};
use crate::script::{done, failing, number_of, remove_from};
use fo_world::{FileError, FileOps};
use std::alloc::Global;
use std::test::Fail;
use test_requests::disks::{Disks, Left, On, closed, opened};
use test_requests::requests::{FILE, found, is_refused, make, rename};

/// How many files there are.
const FILES: u8 = 30;

/// A change of the directory. Names are numbers.
#[derive(Clone, Copy)]
enum Act {
    Make(u8),
    Remove(u8),
    /// The file of the first name gets the second.
    Rename(u8, u8),
}

/// What is done before all is settled, then what is done until the power is cut, and the name that goes to the other leaf.
#[derive(Clone, Copy)]
struct Row {
    before: &'static [Act],
    acts: &'static [Act],
    name: u8,
}

/// The first file gets another name, and a file in the second leaf its name.
const RENAMED: Row = Row {
    before: &[],
    acts: &[Act::Rename(0, 50), Act::Rename(29, 0)],
    name: 0,
};

/// The first file is removed, and a file in the second leaf gets its name.
const REMOVED: Row = Row {
    before: &[],
    acts: &[Act::Remove(0), Act::Rename(29, 0)],
    name: 0,
};

/// The first file gets another name, and a new file its name: there is no room for that in the first leaf.
const CREATED: Row = Row {
    before: &[],
    acts: &[Act::Rename(0, 50), Act::Make(0)],
    name: 0,
};

/// A file in the second leaf is removed, and a new file gets its name: there is room for that in the first leaf.
const CREATED_BEFORE: Row = Row {
    before: &[Act::Remove(0)],
    acts: &[Act::Remove(29), Act::Make(29)],
    name: 29,
};

/// The name of a number below 60, of which 27 fill a leaf.
fn spelled(number: u8) -> [u8; 250] {
    [b'A' + number % 60; 250]
}

/// Makes a file of a name in the root.
fn make_in(alloc: Global, files: &mut On, name: u8) -> Result<(), FileError> {
    done(make(alloc, files, &[], &spelled(name), FILE))
}

/// Gives the file of a name in the root another.
fn rename_in(alloc: Global, files: &mut On, from: u8, to: u8) -> Result<(), FileError> {
    match number_of(alloc, files, &spelled(from)) {
        Ok(number) => rename(alloc, files, &[number], &spelled(to)),
        Err(why) => Err(why),
    }
}

/// Makes a change.
fn change(alloc: Global, files: &mut On, act: Act) -> Result<(), FileError> {
    match act {
        Act::Make(name) => make_in(alloc, files, name),
        Act::Remove(name) => remove_from(alloc, files, &spelled(name)),
        Act::Rename(from, to) => rename_in(alloc, files, from, to),
    }
}

/// Whether these changes are granted, up to the first that is refused, and then a settling.
fn are_granted(alloc: Global, files: &mut On, acts: &[Act]) -> bool {
    for act in acts {
        if change(alloc, files, *act).is_err() {
            return false;
        }
    }
    files.sync().is_ok()
}

/// Whether all files are made.
fn are_made(alloc: Global, files: &mut On) -> bool {
    for name in 0..FILES {
        if make_in(alloc, files, name).is_err() {
            return false;
        }
    }
    true
}

/// What files leave that end where a call is refused, or after the changes of a row were settled, and whether they were.
fn ended(alloc: Global, files: On, row: Row) -> Option<(Left, bool)> {
    let mut files = files;
    let settled = are_made(alloc, &mut files)
        && are_granted(alloc, &mut files, row.before)
        && are_granted(alloc, &mut files, row.acts);
    match closed(files) {
        Some(left) => Some((left, settled)),
        None => None,
    }
}

/// What a run leaves that ends where this call of the main device fails, and whether it came to its end before.
fn cut_at(alloc: Global, call: u64, row: Row) -> Option<(Left, bool)> {
    match failing(alloc, call) {
        Ok(disks) => match opened(alloc, disks) {
            Some(files) => ended(alloc, files, row),
            None => None,
        },
        Err(_) => None,
    }
}

/// Whether the root has a name at most once: where a file of it is removed, there is no other.
fn is_once(alloc: Global, files: &mut On, name: u8) -> bool {
    match remove_from(alloc, files, &spelled(name)) {
        Ok(()) => is_refused(
            found(alloc, files, &[], &spelled(name)),
            b"file does not exist",
        ),
        Err(FileError::Absent) => true,
        Err(_) => false,
    }
}

/// Whether the disks are sound, and have a name at most once.
fn are_right(alloc: Global, disks: Disks, name: u8) -> bool {
    are_sound(alloc, disks, |files| is_once(alloc, files, name))
}

/// What is found at the moment of this call.
fn seen_at(alloc: Global, call: u64, row: Row) -> Moment {
    seen(
        cut_at(alloc, call, row),
        |disks| are_right(alloc, disks, row.name),
    )
}

/// The first call after what is before the changes of a row.
fn first_call(alloc: Global, row: Row) -> Option<u64> {
    let before = Row { acts: &[], ..row };
    match cut_at(alloc, u64::MAX, before) {
        Some((left, true)) => Some(left.main.calls().saturating_sub(3)),
        _ => None,
    }
}

/// Whether there are at least eight moments, and ten images more than moments.
fn all_are_right(alloc: Global, row: Row) -> bool {
    match first_call(alloc, row) {
        Some(first) => match moments(first, 100, |call| seen_at(alloc, call, row)) {
            Some((moments, images)) => {
                8 <= moments && moments.saturating_add(10) <= u64::from(images)
            }
            None => false,
        },
        None => false,
    }
}

#[test]
fn renamed(rt: HostRuntime) -> Result<(), Fail> {
    assert!(rt; all_are_right(rt.alloc(), RENAMED));
    Ok(())
}

#[test]
fn removed(rt: HostRuntime) -> Result<(), Fail> {
    assert!(rt; all_are_right(rt.alloc(), REMOVED));
    Ok(())
}

#[test]
fn created(rt: HostRuntime) -> Result<(), Fail> {
    assert!(rt; all_are_right(rt.alloc(), CREATED));
    Ok(())
}

#[test]
fn created_before(rt: HostRuntime) -> Result<(), Fail> {
    assert!(rt; all_are_right(rt.alloc(), CREATED_BEFORE));
    Ok(())
}
