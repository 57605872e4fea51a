//! What the images of a crash show.
use crate::script::{FIRST, SECOND, STEPS};
use fo_base::Memory;
use fo_world::FileError;
use std::alloc::Global;
use test_requests::disks::{Disks, Left, On, checked, closed, opened};
use test_requests::requests::{found, has_bytes, is_refused};

/// Whether the file with this number has the bytes that were written, or none where that may be.
fn has_hello(alloc: Global, files: &mut On, number: u64, long: u64, may_lack: bool) -> bool {
    match u32::try_from(number) {
        Ok(number) => {
            (long == 5 && has_bytes(alloc, files, &[number], b"hello"))
                || (may_lack && long == 0 && has_bytes(alloc, files, &[number], b""))
        }
        Err(_) => false,
    }
}

/// Whether the file of a name has the bytes that were written; where it may lack, it may be empty, and where it may be gone, absent.
fn has_file(alloc: Global, files: &mut On, name: &[u8], may_lack: bool, may_be_gone: bool) -> bool {
    match found(alloc, files, &[], name) {
        Ok((number, long)) => has_hello(alloc, files, number, long, may_lack),
        Err(FileError::Absent) => may_be_gone,
        Err(_) => false,
    }
}

/// Whether the files are as they may be once so many steps were granted: the first as it was written once that is settled, and so the second, until
/// its removal is settled, too, and it is absent.
fn fits(alloc: Global, files: &mut On, steps: u32) -> bool {
    let first = has_file(alloc, files, b"f", steps < FIRST, steps < FIRST);
    let second = if steps < STEPS {
        has_file(alloc, files, b"g", steps < SECOND, true)
    } else {
        is_refused(found(alloc, files, &[], b"g"), b"file does not exist")
    };
    first && second
}

/// Whether the disks are sound, and open to files that fit.
pub fn are_sound<F: Fn(&mut On) -> bool>(alloc: Global, disks: Disks, fits: F) -> bool
    requires { F.IsAlwaysCallable fits }
{
    let mut disks = disks;
    let sound = checked(alloc, &mut disks).is_some();
    match opened(alloc, disks) {
        Some(mut files) => {
            let fit = fits(&mut files);
            closed(files).is_some() && sound && fit
        }
        None => false,
    }
}

/// Whether the disks are sound, and open to files as they may be once so many steps were granted.
pub fn are_kept(alloc: Global, disks: Disks, steps: u32) -> bool {
    are_sound(alloc, disks, |files| fits(alloc, files, steps))
}

/// Whether the disks that were made of what a crash leaves are right.
fn is_right<F: Fn(Disks) -> bool>(disks: Result<Disks, Memory>, are_right: &F) -> bool
    requires { F.IsAlwaysCallable are_right.now }
{
    match disks {
        Ok(disks) => are_right(disks),
        Err(_) => false,
    }
}

/// How many images a crash may leave, where all are right, and there are at most 256: each choice of a version of each block once.
pub fn of_all<F: Fn(Disks) -> bool>(left: &Left, are_right: F) -> Option<u32>
    requires { F.IsAlwaysCallable are_right }
{
    let choices = left.choices();
    if 256 < choices {
        return None;
    }
    for number in 0..choices {
        if !is_right(left.choice(number), &are_right) {
            return None;
        }
    }
    Some(choices)
}

/// How many images have the newest version of a block that has more than one, and the oldest of all others, where all are right.
fn of_each<F: Fn(Disks) -> bool>(left: &Left, are_right: &F) -> Option<u32>
    requires { F.IsAlwaysCallable are_right.now }
{
    let mut images: u32 = 0;
    for at in 0..64 {
        if 1 < left.versions(at) {
            if !is_right(left.image(at, at + 1), are_right) {
                return None;
            }
            images = images.saturating_add(1);
        }
    }
    Some(images)
}

/// The same, with the image of the oldest versions and that of the newest.
fn of_some<F: Fn(Disks) -> bool>(left: &Left, are_right: F) -> Option<u32>
    requires { F.IsAlwaysCallable are_right }
{
    if !is_right(left.image(0, 0), &are_right) || !is_right(left.image(0, 64), &are_right) {
        return None;
    }
    let images = of_each(left, &are_right)?;
    Some(images.saturating_add(2))
}

/// How many images were made, where all are right: all that a crash may leave, where there are at most 256; else that of the oldest versions,
/// that of the newest, and those with the newest version of one block.
pub fn images(alloc: Global, left: &Left, steps: u32) -> Option<u32> {
    let are_right = |disks| are_kept(alloc, disks, steps);
    if left.choices() <= 256 {
        of_all(left, are_right)
    } else {
        of_some(left, are_right)
    }
}
