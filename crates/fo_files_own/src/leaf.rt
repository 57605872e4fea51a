//! A record in a leaf of the directory above is made ready.
ghost use Rattle.std.specs.Prelude.{◌≡◌, ◌⊎◌, ◌+◌, ◌≤◌, ℕ, length, IfOk, IfErr, OnErr, ◌∷◌, []};
ghost use Rattle.fo_base.specs.Cause.{Rose};
ghost use Rattle.fo_image.specs.Record.{RecordHolds};
ghost use Rattle.fo_meta.specs.Leaf.{IsLeaf};
ghost use Rattle.fo_ports.specs.Causes.{Caused};
ghost use Rattle.fo_files_record.specs.of_dir_change.Changes.{HasChanged};
ghost use Rattle.fo_files_dir.specs.Dir.{IsDirAt};
ghost use Rattle.fo_files_record.specs.Leaf.{IsEntriesAt};
ghost use Rattle.fo_files_record.specs.Stays.{Rewrites, no_slot};
ghost use Rattle.fo_files_ready.specs.of_files_change.Records.{AltersRecords};
ghost use Rattle.fo_files_ready.specs.Ready.{HasPlace, IsLeafOf};
ghost use Rattle.fo_files_own.specs.Own.{HasOwnLeaf, IsOfLeaf, LeavesBelow, MayPutOwn, WasReadied};
ghost use Rattle.fo_ports.specs.Sources.{AddsDirty};

use crate::at::{Below, ReadyOwn};
use fo_base::BLOCK;
use fo_files_ready::ready_record;
use fo_files_record::read;
use fo_image::Record;
use fo_meta::replace;
use fo_ports::{BlockError, Blocks};
use std::alloc::Global;

/// How many ranks below a leaf of entries the leaves of records are that its entries name.
const RECORDS_BELOW: u32 = 24;

/// The bytes of a leaf with this record in the place of the first of its name, for which there is room.
fn with_record(leaf: u32, bytes: &[u8], named: &Record) -> ReadyOwn
    requires leaf { IsLeaf bytes.now × (length bytes.now ≡ 8192) }
    requires place { HasPlace named.now.name named.now bytes.now }
    requires spelled { RecordHolds named.now }
    ensures of { (result.at ≡ leaf) × (result.from ≡ 0) }
    ensures leaf { IsLeaf result.bytes }
    ensures changed { HasChanged named.now.name named.now bytes.now result.bytes }
{
    let mut whole = [0; BLOCK];
    whole.copy_from_slice(bytes);
    let _ = replace(&mut whole, named.name.as_slice(), named);
    ReadyOwn {
        at: leaf,
        from: 0,
        bytes: whole,
    }
}

/// Makes the leaf with a record ready, or another to which the record moves, and makes its bytes with this record in the place of that of its name.
pub(crate) fn ready_below<B: Blocks>(
    alloc: Global,
    on: &mut B,
    at: Below,
    named: &Record,
) -> Result<ReadyOwn, BlockError>
    requires silent { (B.state on.old).tells → ⊥ }
    requires dir { IsDirAt (B.state on.old) at.dir }
    requires entries { IsEntriesAt (B.state on.old) at.entries }
    requires spelled { RecordHolds named.now }
    requires pins { 60 ≤ (B.state on.old).pins_left }
    requires spare { 11 ≤ (B.state on.old).spare }
    requires room { 1637 ≤ (B.state on.old).room }
    ensures ready { IfOk result (λ r. MayPutOwn (B.state on.new) r × IsOfLeaf (B.state on.new) at.dir r × HasOwnLeaf named.now (((B.state on.new).now r.at).bytes) r.bytes) }
    ensures steps { IfOk result (λ r. WasReadied B B.state on.old on.new at named.now.name r.at) }
    ensures stays { (m : B) × AltersRecords at.dir (B.state on.old) (B.state m) × B.keeps on.old m × B.keeps m on.new × Rewrites (IsLeafOf at.dir (B.state m)) no_slot (B.state m) (B.state on.new) }
    ensures left { OnErr result (LeavesBelow B B.state on.old on.new at named.now.name) }
    ensures spare { (B.state on.old).spare ≤ (B.state on.new).spare + 11 }
    ensures pins { (B.state on.old).pins_left ≤ (B.state on.new).pins_left + 60 }
    ensures room { (B.state on.old).room ≤ (B.state on.new).room + 1637 }
    ensures cause { IfErr result (Caused ⊥ (λ b. (B.state on.old).is_block b ⊎ (b ≡ 1)) (Rose (B.state on.old).faults (B.state on.new).faults) (Rose (B.state on.old).arena_faults (B.state on.new).arena_faults)) }
    ensures dirties { IfOk result (λ r. AddsDirty 22 (at.dir.at ∷ []) r.at (B.state on.old) (B.state on.new)) }
    ensures dirties_refused { OnErr result (AddsDirty 22 (at.dir.at ∷ []) at.dir.at (B.state on.old) (B.state on.new)) }
    ensures keeps { B.keeps on.old on.new }
{
    let name = named.name.as_slice();
    let ready = ready_record(
        alloc, on, at.dir, at.entries, at.leaf, at.spare, name, named,
    );
    let leaf = match ready {
        Ok(leaf) => leaf,
        Err(why) => return Err(why),
    };
    let mut bytes = [0; BLOCK];
    match read(on, leaf, at.dir.rank - RECORDS_BELOW, &mut bytes) {
        Ok(()) => Ok(with_record(leaf, &bytes, named)),
        Err(why) => Err(why),
    }
}
