//! The record of a file that was changed, and the leaf to which it goes.
ghost use Rattle.std.specs.Prelude.{◌≡◌, ◌↔◌, ◌≤◌, ℕ, IsTrue, IfErr};
ghost use Rattle.fo_base.specs.Cause.{Rose};
ghost use Rattle.fo_image.specs.Record.{RootRecordHolds};
ghost use Rattle.fo_ports.specs.Causes.{Caused};
ghost use Rattle.fo_ports.specs.State.{Looks};
ghost use Rattle.fo_files_plan.specs.of_files_at.Held.{FileHolds};
ghost use Rattle.fo_files_along.specs.Along.{touched};

use fo_base::Bytes;
use fo_files_look::leaf_for;
use fo_files_plan::files_at::{RECORDS_BELOW, Step, records_of};
use fo_image::{Record, is_record};
use fo_ports::{BlockError, Blocks};
use std::alloc::Global;

/// The record of a file after somebody wrote to it at a moment (seconds since 1970-01-01 UTC).
pub fn touch(named: Record, who: Bytes, now: u32) -> Record
    ensures { result ≡ touched who now named }
{
    Record {
        vers: named.vers.wrapping_add(1),
        mtime: now,
        muid: who,
        ..named
    }
}

/// Whether a record is one of a root directory: its name is `/`, and it has no number and no pair.
pub fn is_of_root(named: &Record) -> bool
    ensures { IsTrue result ↔ RootRecordHolds named.now }
{
    is_record(named)
        && named.name.as_slice() == b"/".as_slice()
        && named.number == 0
        && named.slot == 0
        && named.generation == 0
}

/// The leaf to which a record of this length goes that took as many bytes as this before: its own, where it doesn't get longer, else the first of its
/// directory's records with room, or the one behind the last.
pub fn spare_for<B: Blocks>(
    alloc: Global,
    on: &mut B,
    step: &Step,
    was: usize,
    len: usize,
) -> Result<u32, BlockError>
    requires silent { (B.state on.old).tells → ⊥ }
    requires holds { FileHolds (B.state on.old) step.now.dir }
    requires high { 40 ≤ step.now.dir.rank }
    requires short { len ≤ 481 }
    ensures looks { Looks (B.state on.old) (B.state on.new) × B.keeps on.old on.new }
    ensures cause { IfErr result (Caused ⊥ (λ b. (B.state on.old).is_block b) (Rose (B.state on.old).faults (B.state on.new).faults) ⊥) }
{
    if len <= was {
        return Ok(step.leaf);
    }
    let mut records = match records_of(alloc, on, &step.dir) {
        Ok(records) => records,
        Err(why) => return Err(why),
    };
    match leaf_for(&mut records, on, step.dir.rank - RECORDS_BELOW, len) {
        Ok(leaf) => Ok(leaf),
        Err(why) => Err(why),
    }
}
