//! The power is cut at each moment.
ghost use Rattle.std.specs.Prelude.{◌≡◌, true, length};

use crate::cores::{Core, Way, opened, run};
use crate::images::images;
use fo_base::Memory;
use fo_disk::{Disk, MemDisk};
use std::alloc::Global;
use std::test::Fail;
use test_requests::disks::{Disks, Left, formatted};

/// Whether a disk answers that it has so many blocks.
fn says(disk: &mut MemDisk, blocks: u64) -> bool
    ensures { result ≡ true → length disk.new.cells.items ≡ blocks }
{
    match disk.blocks() {
        Ok(found) => found == blocks,
        Err(_) => false,
    }
}

/// Whether a disk has so many blocks. It is asked twice, as the first call may be the one that fails.
fn has_blocks(disk: &mut MemDisk, blocks: u64) -> bool
    ensures { result ≡ true → length disk.new.cells.items ≡ blocks }
{
    says(disk, blocks) || says(disk, blocks)
}

/// What the system leaves on its disks where it stops now, and how often it called the main one.
fn stopped(core: Core) -> Option<(Left, u64)> {
    let (mut main, mut arena) = core.close();
    let calls = main.calls();
    if has_blocks(&mut main, 64) && has_blocks(&mut arena, 16) {
        Some((Left { main, arena }, calls))
    } else {
        None
    }
}

/// What is found at a moment.
#[derive(Clone, Copy)]
enum Moment {
    /// Something is wrong.
    Wrong,
    /// So many images are right.
    Right(u32),
    /// All images are right that are left where the run came to its end before it.
    After,
}

/// What is found where the call of a moment was made, and where it wasn't.
fn found(images: Option<u32>, made: bool) -> Moment {
    match images {
        Some(images) => if made {
            Moment::Right(images)
        } else {
            Moment::After
        },
        None => Moment::Wrong,
    }
}

/// What a run that came so far leaves.
fn seen(alloc: Global, core: Core, way: Way, call: u64) -> Moment {
    match stopped(core) {
        Some((left, calls)) => found(images(alloc, &left, way), call < calls),
        None => Moment::Wrong,
    }
}

/// What a run on these disks leaves.
fn seen_on(alloc: Global, disks: Disks, call: u64) -> Moment {
    match opened(alloc, disks) {
        Some(core) => {
            let mut core = core;
            let way = run(alloc, &mut core);
            seen(alloc, core, way, call)
        }
        None => Moment::Wrong,
    }
}

/// Formatted disks of which the main one fails at this call, counted from 0.
fn failing(alloc: Global, call: u64) -> Result<Disks, Memory> {
    let fails = vec![in alloc; call]?;
    formatted(alloc, fails)
}

/// What is found at the moment of this call.
fn seen_at(alloc: Global, call: u64) -> Moment {
    match failing(alloc, call) {
        Ok(disks) => seen_on(alloc, disks, call),
        Err(_) => Moment::Wrong,
    }
}

/// How many moments and how many images there are, or the call at whose moment something is wrong. Formatting makes the first six calls,
/// and opening the next ten.
fn moments(alloc: Global) -> Result<(u32, u32), u64> {
    let mut moments: u32 = 0;
    let mut images: u32 = 0;
    for call in 16..400 {
        match seen_at(alloc, call) {
            Moment::Right(more) => {
                moments = moments.saturating_add(1);
                images = images.saturating_add(more);
            }
            Moment::After => return Ok((moments, images)),
            Moment::Wrong => return Err(call),
        }
    }
    Err(400)
}

/// Whether all is right, and there are at least 50 moments and 100 images.
fn are_enough(found: Result<(u32, u32), u64>) -> bool {
    match found {
        Ok((moments, images)) => 50 <= moments && 100 <= images,
        Err(_) => false,
    }
}

#[test]
fn cuts(rt: HostRuntime) -> Result<(), Fail> {
    let found = moments(rt.alloc());
    assert!(rt; are_enough(found), "{found:?}");
    Ok(())
}
