//! The power is cut at each moment.
use crate::images::{images, of_all};
use crate::script::{STEPS, failing, run};
use std::alloc::Global;
use std::test::Fail;
use test_requests::disks::{Disks, Left, closed, opened};

/// What a run on these disks leaves, and how many steps were granted.
fn cut(alloc: Global, disks: Disks) -> Option<(Left, u32)> {
    match opened(alloc, disks) {
        Some(mut files) => {
            let steps = run(alloc, &mut files);
            match closed(files) {
                Some(left) => Some((left, steps)),
                None => None,
            }
        }
        None => None,
    }
}

/// What a run leaves that ends where this call of the main device fails, and how many steps were granted.
fn cut_at(alloc: Global, call: u64) -> Option<(Left, u32)> {
    match failing(alloc, call) {
        Ok(disks) => cut(alloc, disks),
        Err(_) => None,
    }
}

/// What is found at a moment.
#[derive(Clone, Copy)]
pub enum Moment {
    /// Something is wrong.
    Wrong,
    /// So many images are right.
    Right(u32),
    /// The run came to its end before it.
    After,
}

/// The moment of so many right images, or of a wrong one.
fn moment_of(images: Option<u32>, is_after: bool) -> Moment {
    match images {
        Some(_) if is_after => Moment::After,
        Some(images) => Moment::Right(images),
        None => Moment::Wrong,
    }
}

/// What is found in what a run left, and whether it came to its end.
pub fn seen<F: Fn(Disks) -> bool>(found: Option<(Left, bool)>, are_right: F) -> Moment
    requires { F.IsAlwaysCallable are_right }
{
    match found {
        Some((left, is_after)) => moment_of(of_all(&left, are_right), is_after),
        None => Moment::Wrong,
    }
}

/// How many moments and how many images there are from this call on, where all is right, and the run comes to its end in so many calls.
pub fn moments<F: Fn(u64) -> Moment>(first: u64, most: u64, seen_at: F) -> Option<(u64, u32)>
    requires { F.IsAlwaysCallable seen_at }
{
    let mut images: u32 = 0;
    for call in first..first.saturating_add(most) {
        match seen_at(call) {
            Moment::Right(more) => images = images.saturating_add(more),
            Moment::After => return Some((call - first, images)),
            Moment::Wrong => return None,
        }
    }
    None
}

/// What is found at the moment of this call.
fn seen_at(alloc: Global, call: u64) -> Moment {
    match cut_at(alloc, call) {
        Some((left, steps)) => moment_of(images(alloc, &left, steps), steps == STEPS),
        None => Moment::Wrong,
    }
}

/// Whether there are at least 30 moments, and 20 images more than moments. Formatting makes the first six calls, and opening the next four.
fn all_are_right(alloc: Global) -> bool {
    match moments(10, 190, |call| seen_at(alloc, call)) {
        Some((moments, images)) => {
            30 <= moments && moments.saturating_add(20) <= u64::from(images)
        }
        None => false,
    }
}

#[test]
fn cuts(rt: HostRuntime) -> Result<(), Fail> {
    assert!(rt; all_are_right(rt.alloc()));
    Ok(())
}
