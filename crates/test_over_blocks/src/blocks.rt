//! Blocks in memory.
use fo_crash::{Place, Slot};
use fo_image::{Kind, Score, State};
use fo_ports::{BlockError, Blocks};
use fo_ports_plain::PlainBlocks;
use std::alloc::Global;
use std::test::Fail;

/// The last byte of the epoch that the root block of a new device spells, and the next file number.
fn asked(alloc: Global) -> Result<(u8, Option<u32>), BlockError> {
    let mut on = PlainBlocks::new(alloc, 2)?;
    let mut block = [0; 8192];
    on.get(2, Kind::Root, 2144, &mut block)?;
    Ok((block[11], on.number()?))
}

/// A new device is settled.
fn settled(alloc: Global) -> Result<(), BlockError> {
    let mut on = PlainBlocks::new(alloc, 2)?;
    on.settle()
}

/// Room for two blocks and three removals.
fn reserved(alloc: Global) -> Result<(), BlockError> {
    let mut on = PlainBlocks::new(alloc, 2)?;
    on.reserve(2, 1, 3)
}

/// Each call that may want memory, with ample memory: a block is held under its score and its kind, and the last one counts.
#[test]
fn ample(rt: HostRuntime) -> Result<(), Fail> {
    assert_eq!(rt; asked(rt.alloc())?, (1, Some(1)));
    settled(rt.alloc())?;
    reserved(rt.alloc())?;
    let mut on = PlainBlocks::new(rt.alloc(), 2)?;
    let mut into = [1; 8192];
    let score = Score([5; 20]);
    assert_eq!(rt; on.fetch(&score, 0, &mut into), Err(BlockError::Damaged(1)));
    on.hold(&score, 0, &[6; 8192])?;
    on.hold(&score, 3, &[8; 8192])?;
    on.hold(&score, 0, &[7; 8192])?;
    on.fetch(&score, 0, &mut into)?;
    assert_eq!(rt; into, [7; 8192]);
    on.fetch(&score, 3, &mut into)?;
    assert_eq!(rt; into, [8; 8192]);
    Ok(())
}

/// More blocks than the device has are refused, and no memory is wanted for that.
#[test]
fn full(rt: HostRuntime) -> Result<(), Fail> {
    let mut on = PlainBlocks::new(rt.alloc(), 2)?;
    assert_eq!(rt; on.reserve(3, 0, 0), Err(BlockError::Full));
    Ok(())
}

/// A new device: the root block at address 2, file number 1 as the next, and all of it settled.
#[test]
fn fresh(rt: HostRuntime) -> Result<(), Fail> {
    let mut on = PlainBlocks::new(rt.alloc(), 1)?;
    assert_eq!(rt; (on.root(), on.high()), (2, 1));
    assert_eq!(rt;
        (on.label(2).state, on.label(2).kind, on.label(2).tag),
        (State::Live, Kind::Root, 1)
    );
    assert_eq!(rt;
        on.place(2),
        Place {
            kind: Kind::Root,
            tag: 1,
            index: 0,
            rank: 2144
        }
    );
    assert_eq!(rt; on.slot(2, 2), Slot::Prev(0, 0));
    assert!(rt; on.sealed(2) && on.is_sure(2) && !on.is_clearing(2, 0));
    if on.number()? == Some(1) {
        on.number_taken();
    }
    assert_eq!(rt; on.number()?, Some(2));
    Ok(())
}

/// The root block of the next epoch comes after the old one, which stays.
#[test]
fn epochs(rt: HostRuntime) -> Result<(), Fail> {
    let mut on = PlainBlocks::new(rt.alloc(), 1)?;
    on.reserve(1, 1, 0)?;
    on.begin_epoch();
    let root = on.root();
    assert_eq!(rt; (root, on.high()), (3, 2));
    assert_eq!(rt; (on.label(2).epoch, on.label(root).epoch), (1, 2));
    assert_eq!(rt; on.slot(root, 2), Slot::Prev(1, 2));
    Ok(())
}

/// How many moments are kept where two are asked for and all is settled once, and whether that one tells what it had.
fn watched(alloc: Global) -> Result<(usize, bool), BlockError> {
    let mut on = PlainBlocks::new(alloc, 2)?;
    on.watch(2);
    on.settle()?;
    let told = on.left(0, 2).is_some() && on.left(0, 9).is_none() && on.left(1, 2).is_none();
    Ok((on.moments(), told))
}

/// A moment is kept where that was asked for.
#[test]
fn moments(rt: HostRuntime) -> Result<(), Fail> {
    assert_eq!(rt; watched(rt.alloc())?, (1, true));
    Ok(())
}
