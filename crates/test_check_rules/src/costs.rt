//! How often the main device is called.
use crate::made::{fresh, sound};
use crate::wide::wide;
use fo_check_image::check;
use fo_disk::MemDisk;
use std::alloc::Global;
use std::test::Fail;

/// How many calls of the main device a check makes.
fn calls(alloc: Global, main: &mut MemDisk, arena: &mut MemDisk) -> u64 {
    let before = main.calls();
    let _ = check(alloc, main, arena);
    main.calls().wrapping_sub(before)
}

/// Beside the number of blocks: the header, the super block, the label of the active root, the root block, each block of the label table,
/// and once each block of the tree but the root block and a file's bytes.
#[test]
fn once(rt: HostRuntime) -> Result<(), Fail> {
    let alloc = rt.alloc();
    let (mut main, mut arena) = fresh(alloc, 64)?;
    assert_eq!(rt; calls(alloc, &mut main, &mut arena), 6);
    let (mut main, mut arena) = fresh(alloc, 600)?;
    assert_eq!(rt; calls(alloc, &mut main, &mut arena), 7);
    let (mut main, mut arena) = sound(alloc)?;
    assert_eq!(rt; calls(alloc, &mut main, &mut arena), 11);
    let (mut main, mut arena) = wide(alloc)?;
    assert_eq!(rt; calls(alloc, &mut main, &mut arena), 13);
    Ok(())
}
