//! Directories below one another.
use crate::made::{fresh, put};
use fo_check::CheckError;
use fo_check_image::{Report, check};
use fo_disk::MemDisk;
use std::alloc::Global;
use std::test::Fail;

/// The source of entries of number `i` in a chain: a leaf in block 4 + i, with a label, whose first entry leads to the next one.
fn link(main: &mut MemDisk, i: u8, goes_on: bool) -> Result<(), Fail> {
    let at = i.wrapping_add(4);
    let tag = i.wrapping_mul(2).wrapping_add(32);
    let label = [1, 8, 0, 0, 0, 1, 255, 255, 255, 255, 0, 0, 0, tag];
    put(main, 2, 14usize.wrapping_mul(usize::from(at)), &label)?;
    if !goes_on {
        return Ok(());
    }
    let below = tag.wrapping_add(2);
    let entry = [3, 0, 0, 0, 0, 0, 0, below, 0, 0, 0, 0, 0, 0, 32, 0];
    put(main, u32::from(at), 4, &entry)?;
    put(main, u32::from(at), 39, &[at.wrapping_add(2)])
}

/// So many sources of entries from the root's on, each below the one before.
fn links(main: &mut MemDisk, count: u8) -> Result<(), Fail> {
    put(main, 3, 42, &[32])?;
    put(main, 3, 63, &[5])?;
    for i in 0..count {
        link(main, i, i.wrapping_add(1) < count)?;
    }
    Ok(())
}

/// What the check answers of such a chain, in a device of 128 blocks.
fn chain(alloc: Global, count: u8) -> Result<Result<Report, CheckError>, Fail> {
    let (mut main, mut arena) = fresh(alloc, 128)?;
    links(&mut main, count)?;
    Ok(check(alloc, &mut main, &mut arena))
}

/// A source with 64 others above it is sound. One with 65 breaks rule 8, at the leaf that names it.
#[test]
fn levels(rt: HostRuntime) -> Result<(), Fail> {
    let wanted = Report {
        blocks: 128,
        used: 66,
        leaked: 0,
        snapshots: 0,
    };
    assert!(rt; chain(rt.alloc(), 65)? == Ok(wanted));
    let broken = CheckError::Unsound { rule: 8, block: 68 };
    assert!(rt; chain(rt.alloc(), 66)? == Err(broken));
    assert!(rt; chain(rt.alloc(), 90)? == Err(broken));
    Ok(())
}
