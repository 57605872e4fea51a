//! A file is cut, and gets longer again.
ghost use Rattle.std.specs.Prelude.{◌≤◌, length};

use crate::steps::{Step, begun, found, run};
use fo_ports::{BlockError, Blocks};
use std::alloc::Global;
use std::test::Fail;
use test_blocks::CarelessBlocks;

/// A file without bytes is put through these steps: its depth then, where it has these bytes; None where it hasn't, or a step was too big.
fn shows(alloc: Global, steps: &[Step], rows: &[(u64, u8)]) -> Result<Option<u8>, BlockError>
    requires { length steps.now ≤ 8 }
{
    let mut on = CarelessBlocks::new(alloc, 200)?;
    on.reserve(160, 250, 27000)?;
    let file = begun(&mut on);
    if !run(alloc, &mut on, file, steps)? {
        return Ok(None);
    }
    found(alloc, &mut on, file, rows)
}

/// A length in the middle of a leaf, then a longer one: what was cut is zeros, and what stood before it stays.
#[test]
fn ample(rt: HostRuntime) -> Result<(), Fail> {
    let steps = [
        Step::Put(99, 7),
        Step::Put(100, 8),
        Step::Put(8191, 9),
        Step::Cut(100),
        Step::Cut(8192),
    ];
    assert_eq!(rt;
        shows(
            rt.alloc(),
            &steps,
            &[(99, 7), (100, 0), (8191, 0), (8192, 0)]
        )?,
        Some(0)
    );
    Ok(())
}

/// A leaf behind the end is cut where the levels stay, and does not come back.
#[test]
fn leaf_cut(rt: HostRuntime) -> Result<(), Fail> {
    let steps = [
        Step::Put(0, 6),
        Step::Put(8192, 7),
        Step::Put(16384, 8),
        Step::Cut(16384),
        Step::Cut(24576),
    ];
    assert_eq!(rt;
        shows(
            rt.alloc(),
            &steps,
            &[(0, 6), (8192, 7), (16384, 0), (24575, 0)]
        )?,
        Some(1)
    );
    Ok(())
}

/// From one level to none, and to one again.
#[test]
fn one_level(rt: HostRuntime) -> Result<(), Fail> {
    let steps = [
        Step::Put(5, 6),
        Step::Put(8192, 7),
        Step::Cut(8192),
        Step::Cut(8193),
    ];
    assert_eq!(rt;
        shows(rt.alloc(), &steps[..3], &[(5, 6), (8191, 0)])?,
        Some(0)
    );
    assert_eq!(rt; shows(rt.alloc(), &steps, &[(5, 6), (8192, 0)])?, Some(1));
    Ok(())
}

/// From two levels to none: a byte of the first leaf stays, and no other.
#[test]
fn two_levels(rt: HostRuntime) -> Result<(), Fail> {
    let steps = [
        Step::Put(5, 6),
        Step::Put(3350528, 7),
        Step::Cut(10),
        Step::Cut(4000000),
    ];
    assert_eq!(rt;
        shows(rt.alloc(), &steps[..2], &[(5, 6), (3350528, 7)])?,
        Some(2)
    );
    assert_eq!(rt; shows(rt.alloc(), &steps[..3], &[(5, 6), (9, 0)])?, Some(0));
    assert_eq!(rt;
        shows(rt.alloc(), &steps, &[(5, 6), (3350528, 0), (3999999, 0)])?,
        Some(2)
    );
    Ok(())
}

/// From three levels to none.
#[test]
fn three_levels(rt: HostRuntime) -> Result<(), Fail> {
    let steps = [
        Step::Put(5, 6),
        Step::Put(1370365952, 7),
        Step::Cut(10),
        Step::Cut(1370365953),
    ];
    assert_eq!(rt;
        shows(rt.alloc(), &steps[..2], &[(5, 6), (1370365952, 7)])?,
        Some(3)
    );
    assert_eq!(rt; shows(rt.alloc(), &steps[..3], &[(5, 6), (9, 0)])?, Some(0));
    assert_eq!(rt;
        shows(rt.alloc(), &steps, &[(5, 6), (1370365952, 0)])?,
        Some(3)
    );
    Ok(())
}

/// From four levels to none.
#[test]
fn four_levels(rt: HostRuntime) -> Result<(), Fail> {
    let steps = [
        Step::Put(5, 6),
        Step::Put(560479674368, 7),
        Step::Cut(10),
        Step::Cut(560479674369),
    ];
    assert_eq!(rt;
        shows(rt.alloc(), &steps[..2], &[(5, 6), (560479674368, 7)])?,
        Some(4)
    );
    assert_eq!(rt; shows(rt.alloc(), &steps[..3], &[(5, 6), (9, 0)])?, Some(0));
    assert_eq!(rt;
        shows(rt.alloc(), &steps, &[(5, 6), (560479674368, 0)])?,
        Some(4)
    );
    Ok(())
}

/// All bytes are lost, and the longest file has none.
#[test]
fn emptied(rt: HostRuntime) -> Result<(), Fail> {
    let steps = [Step::Put(5, 6), Step::Cut(0), Step::Cut(1 << 40)];
    assert_eq!(rt; shows(rt.alloc(), &steps[..2], &[(5, 0)])?, Some(0));
    assert_eq!(rt;
        shows(rt.alloc(), &steps, &[(5, 0), (1099511627775, 0)])?,
        Some(4)
    );
    Ok(())
}

/// One byte more than a file may have.
#[test]
fn too_big(rt: HostRuntime) -> Result<(), Fail> {
    assert_eq!(rt; shows(rt.alloc(), &[Step::Cut((1 << 40) + 1)], &[])?, None);
    Ok(())
}
