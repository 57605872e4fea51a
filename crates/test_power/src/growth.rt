//! A directory gets one leaf of pairs more, and the power is cut at each moment until that is settled.
//!
//! The root has as many files as its leaves have pairs, all settled. Then one more is made. All images pass the check, and take a new file.
use crate::images::are_sound;
use crate::moments::{Moment, moments, seen};
use crate::script::done;
use fo_world::{FileError, FileOps};
use std::alloc::Global;
use std::test::Fail;
use test_requests::disks::{Disks, Left, On, closed, formatted, opened, that_fail};
use test_requests::requests::{FILE, make};

/// How many pairs a leaf has. Each file has one.
const PAIRS: u32 = 102;

/// The number of the file for which there is no pair yet.
const MORE: u32 = 500;

/// The number of the new file that each image takes.
const NEW: u32 = 600;

/// The name of a number below 676.
fn spelled(number: u32) -> [u8; 2] {
    [b'A' + (number % 26) as u8, b'A' + (number / 26 % 26) as u8]
}

/// Makes a file of a number in the root.
fn make_in(alloc: Global, files: &mut On, number: u32) -> Result<(), FileError> {
    done(make(alloc, files, &[], &spelled(number), FILE))
}

/// Whether a file is made, and that is settled.
fn takes(alloc: Global, files: &mut On, number: u32) -> bool {
    make_in(alloc, files, number).is_ok() && files.sync().is_ok()
}

/// Whether the first so many files are made, and that is settled.
fn takes_all(alloc: Global, files: &mut On, count: u32) -> bool {
    for number in 0..count {
        if make_in(alloc, files, number).is_err() {
            return false;
        }
    }
    files.sync().is_ok()
}

/// Disks on which the root has so many files, all settled.
fn filled(alloc: Global, count: u32) -> Option<Left> {
    let disks = formatted(alloc, Vec::new(alloc)).ok()?;
    let mut files = opened(alloc, disks)?;
    let all = takes_all(alloc, &mut files, count);
    let left = closed(files)?;
    if all { Some(left) } else { None }
}

/// What a run on these disks leaves that makes one more file, and whether that was made and settled.
fn cut(alloc: Global, disks: Disks) -> Option<(Left, bool)> {
    let mut files = opened(alloc, disks)?;
    let settled = takes(alloc, &mut files, MORE);
    Some((closed(files)?, settled))
}

/// The same from the disks at the start, where the run ends at this call of the main device.
fn cut_at(alloc: Global, start: &Left, call: u64) -> Option<(Left, bool)> {
    let disks = start.choice(0).ok()?;
    cut(alloc, that_fail(alloc, disks, call)?)
}

/// Whether the disks are sound, and take a new file.
fn are_right(alloc: Global, disks: Disks) -> bool {
    are_sound(alloc, disks, |files| takes(alloc, files, NEW))
}

/// What is found at the moment of this call.
fn seen_at(alloc: Global, start: &Left, call: u64) -> Moment {
    seen(cut_at(alloc, start, call), |disks| are_right(alloc, disks))
}

/// Whether there are at least twelve moments, and twelve images more than moments, where the root has so many files at first. Opening makes the
/// first four calls.
fn all_are_right(alloc: Global, count: u32) -> bool {
    match filled(alloc, count) {
        Some(start) => match moments(4, 100, |call| seen_at(alloc, &start, call)) {
            Some((moments, images)) => {
                12 <= moments && moments.saturating_add(12) <= u64::from(images)
            }
            None => false,
        },
        None => false,
    }
}

#[test]
fn second(rt: HostRuntime) -> Result<(), Fail> {
    assert!(rt; all_are_right(rt.alloc(), PAIRS));
    Ok(())
}

#[test]
fn third(rt: HostRuntime) -> Result<(), Fail> {
    assert!(rt; all_are_right(rt.alloc(), 2 * PAIRS));
    Ok(())
}
