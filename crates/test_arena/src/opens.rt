//! What is opened, and what is refused.
use crate::blocks::{HEAD, disk, opened, write};
use fo_disk::MemDisk;
use std::alloc::Global;
use std::test::Fail;
use venti_store::{Arena, ArenaWhy};

/// Why the disk is refused, if it is.
fn refusal(alloc: Global, disk: MemDisk) -> Option<ArenaWhy> {
    match Arena::open(alloc, disk) {
        Ok(_) => None,
        Err(refused) => Some(refused.why),
    }
}

/// How many places an arena of 64 blocks has.
#[test]
fn places(rt: HostRuntime) -> Result<(), Fail> {
    let alloc = rt.alloc();
    let mut disk = MemDisk::new(alloc, 64, Vec::new(alloc))?;
    write(&mut disk, 0, b"FSARENA1\0\0\0\x40\0\0\0\0")?;
    assert_eq!(rt; opened(alloc, disk)?.places(), 62);
    Ok(())
}

/// A disk of zeros, a head of another number of blocks, and one with more used places than there are.
#[test]
fn heads(rt: HostRuntime) -> Result<(), Fail> {
    let alloc = rt.alloc();
    for head in [
        b"\0\0\0\0\0\0\0\0\0\0\0\0\0\0\0\0",
        b"FSARENA1\0\0\0\x11\0\0\0\0",
        b"FSARENA1\0\0\0\x10\0\0\0\x0f",
    ] {
        let why = refusal(alloc, disk(alloc, head, Vec::new(alloc))?);
        assert!(rt; why == Some(ArenaWhy::NotArena));
    }
    Ok(())
}

/// A disk of fewer than 16 blocks.
#[test]
fn small(rt: HostRuntime) -> Result<(), Fail> {
    let alloc = rt.alloc();
    let mut disk = MemDisk::new(alloc, 15, Vec::new(alloc))?;
    write(&mut disk, 0, b"FSARENA1\0\0\0\x0f\0\0\0\0")?;
    assert!(rt; refusal(alloc, disk) == Some(ArenaWhy::NotArena));
    Ok(())
}

/// The lines of two used places: one of zeros is no line, and two have one score and kind.
#[test]
fn lines(rt: HostRuntime) -> Result<(), Fail> {
    let alloc = rt.alloc();
    for lines in [
        b"SCORE OF TWENTY BYTE\0\0\0\x05\0\0\0\0\0\0\0\0\0\0\0\0\0\0\0\0\0\0\0\0\0\0\0\0",
        b"SCORE OF TWENTY BYTE\0\0\0\x05SCORE OF TWENTY BYTE\0\0\0\x06",
    ] {
        let mut disk = disk(alloc, b"FSARENA1\0\0\0\x10\0\0\0\x02", Vec::new(alloc))?;
        write(&mut disk, 1, lines)?;
        assert!(rt; refusal(alloc, disk) == Some(ArenaWhy::NotArena));
    }
    Ok(())
}

/// Whether the disk is refused once for its fault, is handed back, and is opened then.
fn opens_again(alloc: Global, disk: MemDisk) -> bool {
    match Arena::open(alloc, disk) {
        Ok(_) => false,
        Err(refused) => {
            refused.why == ArenaWhy::ArenaRead && refusal(alloc, refused.device).is_none()
        }
    }
}

/// The two calls of an opening fail in turn.
#[test]
fn faults(rt: HostRuntime) -> Result<(), Fail> {
    let alloc = rt.alloc();
    for call in 3..5 {
        let disk = disk(alloc, HEAD, vec![in alloc; call]?)?;
        assert!(rt; opens_again(alloc, disk));
    }
    Ok(())
}
