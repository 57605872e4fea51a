//! A leaf of records is read.
ghost use Rattle.std.specs.Prelude.{◌≡◌, ◌⊎◌, ◌+◌, ◌%◌, ◌≤◌, ℕ, true, length, IfErr, OnOk};
ghost use Rattle.fo_base.specs.Cause.{Rose};
ghost use Rattle.fo_meta.specs.Leaf.{IsLeaf};
ghost use Rattle.fo_ports.specs.Causes.{Caused};
ghost use Rattle.fo_ports.specs.State.{Looks};
ghost use Rattle.fo_dir_remove.specs.of_dir_change.Changes.{Bears};
ghost use Rattle.fo_files_record.specs.Leaf.{IsRecordsAt};

use fo_base::BLOCK;
use fo_image::Kind;
use fo_meta::remove;
use fo_ports::{BlockError, Blocks};

/// Copies the bytes of an owned leaf of records of this rank.
pub fn read<B: Blocks>(on: &mut B, leaf: u32, rank: u32, into: &mut [u8]) -> Result<(), BlockError>
    requires silent { (B.state on.old).tells → ⊥ }
    requires leaf { IsRecordsAt (B.state on.old) leaf }
    requires rank { rank % 32 ≡ 16 }
    requires length { length into.old ≡ 8192 }
    ensures leaf { IsRecordsAt (B.state on.new) leaf }
    ensures bytes { OnOk result (IsLeaf into.new × (into.new ≡ ((B.state on.new).now leaf).bytes)) }
    ensures same { ((B.state on.new).now leaf).bytes ≡ ((B.state on.old).now leaf).bytes }
    ensures pins { (B.state on.new).pins_left ≡ (B.state on.old).pins_left }
    ensures looks { Looks (B.state on.old) (B.state on.new) }
    ensures cause { IfErr result (Caused ⊥ (B.state on.old).is_block (Rose (B.state on.old).faults (B.state on.new).faults) ⊥) }
    ensures keeps { B.keeps on.old on.new }
{
    match on.get(leaf, Kind::Data(0), rank, into) {
        Ok(()) => Ok(()),
        Err(why) => Err(why),
    }
}
