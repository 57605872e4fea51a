//! The tests.
ghost use Rattle.std.specs.Prelude.{◌≡◌, ◌-◌, ◌<◌, ◌≤◌, ◌^◌, length, IfOk};
ghost use Rattle.fo_image.specs.Record.{RecordHolds};

use crate::dir::new_dir;
use crate::life::life;
use fo_image::{Record, RecordError, read_record};
use fo_ports::{BlockError, Blocks};
use std::alloc::Global;
use std::test::Fail;
use test_blocks::CarelessBlocks;

/// The record of file 9, without a pair yet, with the name `b` and three users `adm`.
const NEW: [u8; 44] = [
    0, 44, 0, 0, 0, 9, 0, 0, 0, 0, 0, 0, 0, 0, 0, 0, 0, 0, 0, 0, 1, 164, 0, 0, 0, 5, 0, 0, 0, 6, 1,
    98, 3, 97, 100, 109, 3, 97, 100, 109, 3, 97, 100, 109,
];

fn record(alloc: Global) -> Result<Record, RecordError>
    ensures { IfOk result RecordHolds }
{
    read_record(alloc, &NEW)
}

/// Blocks that tell nothing, with room for 70 blocks, and 3300 removals and waits.
fn careless(alloc: Global) -> Result<CarelessBlocks, BlockError>
    ensures { IfOk result (λ on. (70 ≤ on.count - length on.blocks.items) × (3300 ≤ on.room)) }
{
    let mut on = CarelessBlocks::new(alloc, 80)?;
    on.reserve(70, 200, 3300)?;
    Ok(on)
}

/// A file is made in a new directory, five bytes are written from the fourth on, and it is taken out by this name, of this pair; its length.
fn lived<B: Blocks>(
    alloc: Global,
    on: &mut B,
    named: Record,
    pair: u32,
    name: &[u8],
) -> Result<u64, BlockError>
    requires named { RecordHolds named }
    requires pins { 152 ≤ (B.state on.old).pins_left }
    requires spare { 65 ≤ (B.state on.old).spare }
    requires room { 3276 ≤ (B.state on.old).room }
    requires untold { (b : B) → (B.state b).tells → ⊥ }
{
    if named.number >= 1 << 30 {
        return Err(BlockError::Memory);
    }
    match new_dir(on) {
        Some(dir) => life(alloc, on, dir, named, b"hello", pair, name),
        None => Err(BlockError::Memory),
    }
}

/// A file that is made, written and taken out has the length of what was written.
#[test]
fn ample(rt: HostRuntime) -> Result<(), Fail> {
    let mut on = careless(rt.alloc())?;
    let named = record(rt.alloc())?;
    assert!(rt; lived(rt.alloc(), &mut on, named, 0, b"b")? == 8);
    Ok(())
}

/// One of another pair isn't taken out.
#[test]
fn another_pair(rt: HostRuntime) -> Result<(), Fail> {
    let mut on = careless(rt.alloc())?;
    let named = record(rt.alloc())?;
    assert!(rt; lived(rt.alloc(), &mut on, named, 1, b"b").is_err());
    Ok(())
}
