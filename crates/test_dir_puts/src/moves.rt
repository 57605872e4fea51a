//! A record moves to another leaf (`fo_dir_move`).
ghost use Rattle.std.specs.Prelude.{◌≤◌};
ghost use Rattle.fo_image.specs.Record.{RecordHolds};

use crate::names::{holds, moved};
use crate::records::{careless, one, record};
use fo_image::Record;
use fo_meta::empty_leaf;
use fo_ports::{BlockError, Blocks};
use std::test::Fail;

/// Whether a record that moves leaves its leaf empty, and stands in the other.
fn is_moved<B: Blocks>(on: &mut B, named: &mut Record) -> Result<bool, BlockError>
    requires spare { 3 ≤ (B.state on.old).spare }
    requires room { 3 ≤ (B.state on.old).room }
    requires untold { (b : B) → (B.state b).tells → ⊥ }
    requires spelled { RecordHolds named.old }
{
    match moved(on, named)? {
        None => Ok(false),
        Some((from, to)) => Ok(holds(on, from, &empty_leaf())? && holds(on, to, &one())?),
    }
}

/// With ample memory one that moves, by `move_record` over `move_name`, stands in the other leaf alone.
#[test]
fn ample(rt: HostRuntime) -> Result<(), Fail> {
    let mut on = careless(rt.alloc())?;
    let mut named = record(rt.alloc())?;
    assert!(rt; is_moved(&mut on, &mut named)?);
    Ok(())
}
