use fo_disk::{BLOCK, Disk, DiskFault, MemDisk};
use fo_format::{FormatError, format};
use std::alloc::Global;
use std::test::Fail;

/// The bytes of the header, the super block, the label of block 3 and the front of the root block of a main device of 64 blocks
/// that was formatted at time 7, and of the head of an arena of 16 blocks, worked out by hand.
const HEADER: &[u8] = b"FOSSILHD\0\0\x20\0\0\0\0\x40";

const SUPER: &[u8] = b"FOSSILSB\0\x01\0\0\0\x01\0\0\0\x01\0\0\0\x03\0\0\0\x01\0\0\0\0\0";

const LABEL: &[u8] = b"\x01\x10\0\0\0\x01\xff\xff\xff\xff\0\0\0\x01";

const ROOT: &[u8] = b"FOSSILRT\0\0\0\x01\0\0\0\x07\0\0\0\0\0\0\0\0";

const HEAD: &[u8] = b"FSARENA1\0\0\0\x10\0\0\0\0";

/// Whether the block of this number holds these bytes from this place on.
fn holds(disk: &mut MemDisk, at: u32, from: usize, bytes: &[u8]) -> Result<bool, Fail> {
    let mut block = [0; BLOCK];
    if disk.blocks()? <= u64::from(at) {
        return Ok(false);
    }
    disk.read(at, &mut block)?;
    Ok(
        block
            .iter()
            .skip(from)
            .zip(bytes.iter())
            .all(|(held, wanted)| *held == *wanted),
    )
}

/// Whether the main device holds the image of an empty file system.
fn holds_image(main: &mut MemDisk) -> Result<bool, Fail> {
    Ok(
        holds(main, 0, 0, HEADER)?
            && holds(main, 1, 0, SUPER)?
            && holds(main, 2, 42, LABEL)?
            && holds(main, 3, 0, ROOT)?,
    )
}

/// What is written on devices of zeros.
#[test]
fn ample(rt: HostRuntime) -> Result<(), Fail> {
    let alloc = rt.alloc();
    let mut main = MemDisk::new(alloc, 64, Vec::new(alloc))?;
    let mut arena = MemDisk::new(alloc, 16, Vec::new(alloc))?;
    assert!(rt; format(alloc, &mut main, &mut arena, 7) == Ok(()));
    assert!(rt; holds_image(&mut main)?);
    assert!(rt; holds(&mut arena, 0, 0, HEAD)?);
    Ok(())
}

/// What is answered where the calls of these numbers fail, and whether it is tried again with success.
fn fails(alloc: Global, main_call: u64, arena_call: u64, why: FormatError) -> Result<bool, Fail> {
    let mut main = MemDisk::new(alloc, 64, vec![in alloc; main_call]?)?;
    let mut arena = MemDisk::new(alloc, 16, vec![in alloc; arena_call]?)?;
    Ok(
        format(alloc, &mut main, &mut arena, 0) == Err(why)
            && format(alloc, &mut main, &mut arena, 0) == Ok(()),
    )
}

/// Each call of a device fails in turn: there are 6 of a main device of 64 blocks, and 3 of the arena.
#[test]
fn faults(rt: HostRuntime) -> Result<(), Fail> {
    let alloc = rt.alloc();
    assert!(rt; fails(alloc, 0, 99, FormatError::Main(DiskFault::Read))?);
    for call in 1..5 {
        assert!(rt; fails(alloc, call, 99, FormatError::Main(DiskFault::Write))?);
    }
    assert!(rt; fails(alloc, 5, 99, FormatError::Main(DiskFault::Sync))?);
    assert!(rt; fails(alloc, 99, 0, FormatError::Arena(DiskFault::Read))?);
    assert!(rt; fails(alloc, 99, 1, FormatError::Arena(DiskFault::Write))?);
    assert!(rt; fails(alloc, 99, 2, FormatError::Arena(DiskFault::Sync))?);
    Ok(())
}

/// Whether this is printed of the refusal.
fn prints(alloc: Global, error: FormatError, text: &str) -> Result<bool, Fail> {
    Ok(format!(in alloc; "{error}")?.as_str() == text)
}

#[test]
fn texts(rt: HostRuntime) -> Result<(), Fail> {
    let alloc = rt.alloc();
    assert!(rt; prints(alloc, FormatError::Size, "size of a device out of range")?);
    assert!(rt;
        prints(
            alloc,
            FormatError::Main(DiskFault::Write),
            "main device: write failed"
        )?
    );
    assert!(rt;
        prints(
            alloc,
            FormatError::Arena(DiskFault::Sync),
            "arena: sync failed"
        )?
    );
    assert!(rt; prints(alloc, FormatError::Memory, "no memory")?);
    Ok(())
}
