//! Bytes of older leaves.
ghost use Rattle.std.specs.Prelude.{◌≡◌, ◌<◌, IfOk};
ghost use Rattle.test_blocks.specs.Silent.{IsData};

use fo_image::Kind;
use fo_ports::{BlockError, Blocks};
use fo_ports_clients::older_byte;
use std::alloc::Global;
use std::test::Fail;
use test_blocks::CarelessBlocks;

/// Blocks that tell nothing, with a new leaf of data of the first epoch.
fn leaf(alloc: Global) -> Result<(CarelessBlocks, u32), BlockError>
    ensures { IfOk result (λ made. IsData made.0.count made.1 × (made.0.high ≡ 1)) }
{
    let mut on = CarelessBlocks::new(alloc, 5)?;
    on.reserve(1, 1, 0)?;
    let at = on.new_block(Kind::Data(0), 9, 0);
    Ok((on, at))
}

/// A byte of a leaf is sure once the leaf is older.
#[test]
fn older(rt: HostRuntime) -> Result<(), Fail> {
    let (mut on, at) = leaf(rt.alloc())?;
    assert_eq!(rt; older_byte(&mut on, at, 0, 5)?, None);
    on.begin_epoch();
    assert_eq!(rt; older_byte(&mut on, at, 0, 5)?, Some(0));
    Ok(())
}
