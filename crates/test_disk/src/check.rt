use fo_check::CheckError;
use fo_check_image::{Report, check};
use fo_disk::{BLOCK, Disk, DiskFault, MemDisk};
use fo_format::format;
use std::alloc::Global;
use std::test::Fail;

/// Gives one byte of a block this value.
fn change(disk: &mut MemDisk, at: u32, place: usize, byte: u8) -> Result<(), Fail> {
    if disk.blocks()? <= u64::from(at) || BLOCK <= place {
        return Ok(());
    }
    let mut block = [0; BLOCK];
    disk.read(at, &mut block)?;
    block[place] = byte;
    disk.write(at, &block)?;
    disk.sync()?;
    Ok(())
}

/// Gives these bytes of the main device these values, each by its block and its place.
fn change_all(main: &mut MemDisk, bytes: &[(u32, usize, u8)]) -> Result<(), Fail> {
    for (at, place, byte) in bytes {
        change(main, *at, *place, *byte)?;
    }
    Ok(())
}

/// What the check answers once devices of 64 and 16 blocks were formatted and some bytes of the main device were changed.
fn answer(alloc: Global, bytes: &[(u32, usize, u8)]) -> Result<Result<Report, CheckError>, Fail> {
    let mut main = MemDisk::new(alloc, 64, Vec::new(alloc))?;
    let mut arena = MemDisk::new(alloc, 16, Vec::new(alloc))?;
    format(alloc, &mut main, &mut arena, 7)?;
    change_all(&mut main, bytes)?;
    Ok(check(alloc, &mut main, &mut arena))
}

/// Whether the check names this rule and this block.
fn names(alloc: Global, bytes: &[(u32, usize, u8)], rule: u8, block: u32) -> Result<bool, Fail> {
    Ok(answer(alloc, bytes)? == Err(CheckError::Unsound { rule, block }))
}

/// A formatted device is sound. A live block that no tree reaches is leaked.
#[test]
fn ample(rt: HostRuntime) -> Result<(), Fail> {
    let mut wanted = Report {
        blocks: 64,
        used: 1,
        leaked: 0,
        snapshots: 0,
    };
    assert!(rt; answer(rt.alloc(), &[])? == Ok(wanted));
    wanted.leaked = 1;
    let live = [
        (2, 140, 1),
        (2, 145, 1),
        (2, 146, 255),
        (2, 147, 255),
        (2, 148, 255),
        (2, 149, 255),
    ];
    assert!(rt; answer(rt.alloc(), &live)? == Ok(wanted));
    Ok(())
}

/// The header and the super block; low above high, and an active root that is free or of another epoch.
#[test]
fn starts(rt: HostRuntime) -> Result<(), Fail> {
    assert!(rt; names(rt.alloc(), &[(0, 0, 0)], 1, 0)?);
    assert!(rt; names(rt.alloc(), &[(1, 0, 0)], 1, 1)?);
    assert!(rt; names(rt.alloc(), &[(1, 13, 2)], 2, 1)?);
    assert!(rt; names(rt.alloc(), &[(1, 21, 4)], 2, 4)?);
    assert!(rt; names(rt.alloc(), &[(2, 47, 2)], 2, 3)?);
    assert!(rt; names(rt.alloc(), &[(3, 11, 2)], 2, 3)?);
    Ok(())
}

/// Epochs 2 to 3, and a root before the active one, of epoch 1 at block 9: the chain ends at the active root.
#[test]
fn chain(rt: HostRuntime) -> Result<(), Fail> {
    let bytes = [
        (1, 13, 2),
        (1, 17, 3),
        (2, 47, 3),
        (3, 11, 3),
        (3, 19, 1),
        (3, 23, 9),
    ];
    assert!(rt; names(rt.alloc(), &bytes, 3, 3)?);
    Ok(())
}

/// The score of a last archive; epochs 1 to 2, and a root before the active one, of epoch 1.
#[test]
fn not_built(rt: HostRuntime) -> Result<(), Fail> {
    let last = [(1, 30, 1), (1, 31, 7)];
    assert!(rt; answer(rt.alloc(), &last)? == Err(CheckError::NotBuilt));
    let older = [(1, 17, 2), (2, 47, 2), (3, 11, 2), (3, 19, 1), (3, 23, 9)];
    assert!(rt; answer(rt.alloc(), &older)? == Err(CheckError::NotBuilt));
    Ok(())
}

/// The state of the label of block 4, the label of block 0, the bytes after all labels, and the tag of the entries.
#[test]
fn tables(rt: HostRuntime) -> Result<(), Fail> {
    assert!(rt; names(rt.alloc(), &[(2, 56, 7)], 4, 4)?);
    assert!(rt; names(rt.alloc(), &[(2, 0, 1)], 4, 2)?);
    assert!(rt; names(rt.alloc(), &[(2, 8191, 1)], 4, 2)?);
    assert!(rt; names(rt.alloc(), &[(3, 35, 33)], 6, 3)?);
    Ok(())
}

/// What the check answers over an arena with this byte at this place of block 0.
fn arena_answer(alloc: Global, place: usize, byte: u8) -> Result<Result<Report, CheckError>, Fail> {
    let mut main = MemDisk::new(alloc, 64, Vec::new(alloc))?;
    let mut arena = MemDisk::new(alloc, 16, Vec::new(alloc))?;
    format(alloc, &mut main, &mut arena, 7)?;
    change(&mut arena, 0, place, byte)?;
    Ok(check(alloc, &mut main, &mut arena))
}

/// An arena without its first letter, and one with a place in use.
#[test]
fn arenas(rt: HostRuntime) -> Result<(), Fail> {
    assert!(rt; arena_answer(rt.alloc(), 0, 0)? == Err(CheckError::NotArena));
    assert!(rt; arena_answer(rt.alloc(), 15, 1)? == Err(CheckError::NotBuilt));
    Ok(())
}

/// Whether the check of zeros of so many blocks says that a size is out of range.
fn is_size(alloc: Global, blocks: u32, arena_blocks: u32) -> Result<bool, Fail> {
    let mut main = MemDisk::new(alloc, blocks, Vec::new(alloc))?;
    let mut arena = MemDisk::new(alloc, arena_blocks, Vec::new(alloc))?;
    Ok(check(alloc, &mut main, &mut arena) == Err(CheckError::Size))
}

#[test]
fn sizes(rt: HostRuntime) -> Result<(), Fail> {
    assert!(rt; is_size(rt.alloc(), 63, 16)?);
    assert!(rt; is_size(rt.alloc(), 64, 15)?);
    assert!(rt; is_size(rt.alloc(), 0, 16)?);
    assert!(rt; is_size(rt.alloc(), 64, 0)?);
    assert!(rt; !is_size(rt.alloc(), 64, 16)?);
    Ok(())
}

/// Whether the check answers this fault once, where the call of this number of the main device or of the arena fails.
fn fails(alloc: Global, main_call: u64, arena_call: u64, fault: CheckError) -> Result<bool, Fail> {
    let mut main = MemDisk::new(alloc, 64, vec![in alloc; main_call]?)?;
    let mut arena = MemDisk::new(alloc, 16, vec![in alloc; arena_call]?)?;
    format(alloc, &mut main, &mut arena, 7)?;
    Ok(
        check(alloc, &mut main, &mut arena) == Err(fault)
            && check(alloc, &mut main, &mut arena).is_ok(),
    )
}

/// Each call fails in turn: `format` makes 6 calls of the main device and 3 of the arena, and the check 6 and 2.
#[test]
fn faults(rt: HostRuntime) -> Result<(), Fail> {
    for call in 6..12 {
        assert!(rt; fails(rt.alloc(), call, 99, CheckError::Main(DiskFault::Read))?);
    }
    for call in 3..5 {
        assert!(rt; fails(rt.alloc(), 99, call, CheckError::Arena(DiskFault::Read))?);
    }
    Ok(())
}
