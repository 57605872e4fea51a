//! Each call of a device fails once.
use crate::images::are_kept;
use crate::script::{STEPS, failing, step};
use fo_world::FileError;
use std::alloc::Global;
use std::test::Fail;
use test_requests::disks::{Disks, Left, On, closed, opened};

/// Whether it is a fault of the main device.
fn is_fault(why: &FileError) -> bool {
    matches!(
        why,
        FileError::MainRead | FileError::MainWrite | FileError::MainSync
    )
}

/// Takes a step, and where it is refused for a fault takes it again: how often it was refused. None where it can't be taken.
fn tried(alloc: Global, files: &mut On, at: u32) -> Option<u32> {
    match step(alloc, files, at) {
        Ok(()) => Some(0),
        Err(why) => {
            if is_fault(&why) && step(alloc, files, at).is_ok() {
                Some(1)
            } else {
                None
            }
        }
    }
}

/// How many steps were refused for a fault and then granted, where all others were granted at once.
fn refused(alloc: Global, files: &mut On) -> Option<u32> {
    let mut refused: u32 = 0;
    for at in 0..STEPS {
        match tried(alloc, files, at) {
            Some(more) => refused = refused.saturating_add(more),
            None => return None,
        }
    }
    Some(refused)
}

/// Whether all is there once each step was granted.
fn ends_well(alloc: Global, left: &Left) -> bool {
    match left.image(0, 0) {
        Ok(disks) => are_kept(alloc, disks, STEPS),
        Err(_) => false,
    }
}

/// How many steps were refused for a fault on these disks and then granted, where all is there in the end.
fn mended(alloc: Global, disks: Disks) -> Option<u32> {
    match opened(alloc, disks) {
        Some(mut files) => {
            let refused = refused(alloc, &mut files);
            match closed(files) {
                Some(left) => if ends_well(alloc, &left) {
                    refused
                } else {
                    None
                },
                None => None,
            }
        }
        None => None,
    }
}

/// How many steps were refused where this call of the main device fails.
fn faults(alloc: Global, call: u64) -> Option<u32> {
    match failing(alloc, call) {
        Ok(disks) => mended(alloc, disks),
        Err(_) => None,
    }
}

/// How many calls were answered as a fault when they failed, up to the first that isn't made.
fn calls(alloc: Global) -> Option<u64> {
    for call in 10..200 {
        match faults(alloc, call) {
            Some(1) => (),
            Some(0) => return Some(call - 10),
            _ => return None,
        }
    }
    None
}

/// Whether at least 30 calls were answered so.
fn all_are_answered(alloc: Global) -> bool {
    match calls(alloc) {
        Some(calls) => 30 <= calls,
        None => false,
    }
}

/// A call that fails is answered as a fault by one step, which is granted when it is asked again; all others are granted at once.
#[test]
fn fails(rt: HostRuntime) -> Result<(), Fail> {
    assert!(rt; all_are_answered(rt.alloc()));
    Ok(())
}
