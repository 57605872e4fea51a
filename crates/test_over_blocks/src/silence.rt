//! Blocks that tell nothing.
ghost use Rattle.std.specs.Prelude.{◌≡◌, ◌<◌, IfOk};
ghost use Rattle.test_blocks.specs.Change.{IsApartFromAll, IsHad};
ghost use Rattle.test_blocks.specs.Silent.{IsData, state_of};
ghost use Rattle.test_blocks.specs.SilentParts.{parts};

use fo_image::{Kind, Score};
use fo_ports::{BlockError, Blocks};
use std::test::Fail;
use test_blocks::{CarelessBlocks, fetch_twice, put_byte};

/// A block of data is given out.
fn given(on: &mut CarelessBlocks) -> Result<u32, BlockError>
    requires none { IsApartFromAll (state_of (parts on.old)) }
    ensures none { IsApartFromAll (state_of (parts on.new)) }
    ensures high { (parts on.new).high ≡ (parts on.old).high }
    ensures had { IfOk result (λ at. IsHad (state_of (parts on.new)) at × IsData (parts on.new).count at × (((state_of (parts on.new)).label at).epoch ≡ (parts on.new).high)) }
{
    if let Err(e) = on.reserve(1, 1, 0) {
        return Err(e);
    }
    Ok(on.new_block(Kind::Data(0), 9, 0))
}

/// A byte of a block of data.
fn byte_of(on: &mut CarelessBlocks, at: u32, i: usize) -> Result<u8, BlockError>
    requires block { IsData (parts on.old).count at }
    requires within { i < 8192 }
    ensures { (parts on.new).count ≡ (parts on.old).count }
{
    let mut block = [0; 8192];
    on.get(at, Kind::Data(0), 0, &mut block)?;
    Ok(block[i])
}

/// A copy of a block of data, where it is of an earlier epoch.
fn copied(on: &mut CarelessBlocks, at: u32) -> Result<Option<u32>, BlockError>
    requires block { IsData (parts on.old).count at }
{
    on.reserve(1, 1, 0)?;
    let mut block = [0; 8192];
    on.get(at, Kind::Data(0), 0, &mut block)?;
    if on.high() <= on.label(at).epoch {
        return Ok(None);
    }
    Ok(Some(on.copy(at)))
}

/// Each call that takes memory, with ample memory; and more blocks than there are, for which none is wanted.
#[test]
fn ample(rt: HostRuntime) -> Result<(), Fail> {
    let mut on = CarelessBlocks::new(rt.alloc(), 5)?;
    on.reserve(2, 1, 3)?;
    assert_eq!(rt; on.reserve(3, 0, 0), Err(BlockError::Full));
    Ok(())
}

/// A block of an earlier epoch is copied, and no other.
#[test]
fn epochs(rt: HostRuntime) -> Result<(), Fail> {
    let mut on = CarelessBlocks::new(rt.alloc(), 5)?;
    let at = given(&mut on)?;
    on.begin_epoch();
    assert_eq!(rt; copied(&mut on, at)?, Some(4));
    Ok(())
}

/// A byte is put by a layer over any blocks, and had again; its neighbour stays.
#[test]
#[tactic(auto, using(crate::proofs::Untold::stands))]
fn put(rt: HostRuntime) -> Result<(), Fail> {
    let mut on = CarelessBlocks::new(rt.alloc(), 5)?;
    let at = given(&mut on)?;
    assert!(rt; put_byte(&mut on, at, 0, 5, 7)?);
    assert_eq!(rt;
        (byte_of(&mut on, at, 5)?, byte_of(&mut on, at, 6)?),
        (7, 0)
    );
    Ok(())
}

/// A whole block of data is put, and had again.
#[test]
fn filled(rt: HostRuntime) -> Result<(), Fail> {
    let mut on = CarelessBlocks::new(rt.alloc(), 5)?;
    let at = given(&mut on)?;
    on.put_bytes(at, 0, &[3; 8192]);
    let mut block = [0; 8192];
    on.get(at, Kind::Data(0), 0, &mut block)?;
    assert_eq!(rt; (at, block), (3, [3; 8192]));
    Ok(())
}

/// An arena that reads differently each time: what was fetched isn't found again, and the slice stays.
#[test]
fn arena(rt: HostRuntime) -> Result<(), Fail> {
    let mut on = CarelessBlocks::new(rt.alloc(), 5)?;
    let (mut first, mut second) = ([1; 8192], [1; 8192]);
    let again = fetch_twice(&mut on, &Score([5; 20]), 0, &mut first, &mut second)?;
    assert_eq!(rt; again, Err(BlockError::Damaged(1)));
    assert_eq!(rt; (first, second), ([0; 8192], [1; 8192]));
    Ok(())
}
