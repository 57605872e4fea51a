//! The root directory's own record is made ready.
ghost use Rattle.std.specs.Prelude.{◌≡◌, ◌⊎◌, ◌≤◌, ℕ, length, IfOk, IfErr, OnOk, ◌∷◌, []};
ghost use Rattle.fo_base.specs.Cause.{Rose};
ghost use Rattle.fo_image.specs.Record.{RootRecordHolds};
ghost use Rattle.fo_ports.specs.declared.error.BlockError.TheVariants.{Damaged, Memory};
ghost use Rattle.fo_ports.specs.Causes.{Caused};
ghost use Rattle.fo_ports.specs.State.{Looks};
ghost use Rattle.fo_files_record.specs.Own.{HasOwn, IsRootAt};
ghost use Rattle.fo_files_own.specs.Own.{HasOwnRoot, IsLive, IsOfRoot, MayPutOwn};
ghost use Rattle.fo_ports.specs.Sources.{AddsDirty};

use crate::at::ReadyOwn;
use fo_base::BLOCK;
use fo_files_record::rewritten;
use fo_image::{Kind, Record};
use fo_ports::{BlockError, Blocks};
use std::alloc::{AllocError, Global};

/// Where the root directory's own record stands in a root block.
const OWN: u32 = 104;

/// The rank of the place of a root block.
const ROOT_PLACE: u32 = 2144;

/// A copy of a record.
pub fn copied(alloc: Global, named: &Record) -> Result<Record, AllocError>
    ensures { IfOk result (λ r. r ≡ named.now) }
{
    Ok(Record {
        name: named.name.copy(alloc)?,
        uid: named.uid.copy(alloc)?,
        gid: named.gid.copy(alloc)?,
        muid: named.muid.copy(alloc)?,
        ..*named
    })
}

/// The bytes of a root block with this record of its own. A block that spells no root block is damaged.
fn with_record(
    alloc: Global,
    block: &[u8],
    root: u32,
    named: &Record,
) -> Result<ReadyOwn, BlockError>
    requires length { length block.now ≡ 8192 }
    requires spelled { RootRecordHolds named.now }
    ensures of { IfOk result (IsOfRoot root) }
    ensures own { IfOk result (λ r. HasOwn named.now block.now r.bytes) }
    ensures long { IfOk result (λ r. length r.bytes ≡ 8192) }
    ensures cause { IfErr result (λ e. (e ≡ Memory) ⊎ (e ≡ Damaged root)) }
{
    let Ok(own) = copied(alloc, named) else {
        return Err(BlockError::Memory);
    };
    let mut bytes = [0; BLOCK];
    match rewritten(alloc, block, root, own, &mut bytes) {
        Ok(()) => Ok(ReadyOwn {
            at: root,
            from: OWN,
            bytes,
        }),
        Err(why) => Err(why),
    }
}

/// Reads a root block, and makes its bytes with this record of its own.
pub(crate) fn ready_root<B: Blocks>(
    alloc: Global,
    on: &mut B,
    root: u32,
    named: &Record,
) -> Result<ReadyOwn, BlockError>
    requires silent { (B.state on.old).tells → ⊥ }
    requires root { IsRootAt (B.state on.old) root × IsLive (B.state on.old) root }
    requires spelled { RootRecordHolds named.now }
    ensures ready { IfOk result (λ r. MayPutOwn (B.state on.new) r × IsOfRoot root r × HasOwnRoot (B.state on.new) root named.now r.bytes) }
    ensures looks { Looks (B.state on.old) (B.state on.new) }
    ensures root { IsRootAt (B.state on.new) root × IsLive (B.state on.new) root }
    ensures pins { (B.state on.new).pins_left ≡ (B.state on.old).pins_left }
    ensures spare { ((B.state on.new).spare ≡ (B.state on.old).spare) × ((B.state on.new).room ≡ (B.state on.old).room) }
    ensures cause { IfErr result (Caused ⊥ (λ b. (B.state on.old).is_block b ⊎ (b ≡ 1)) (Rose (B.state on.old).faults (B.state on.new).faults) (Rose (B.state on.old).arena_faults (B.state on.new).arena_faults)) }
    ensures dirties { IfOk result (λ r. AddsDirty 0 (root ∷ []) r.at (B.state on.old) (B.state on.new)) }
    ensures keeps { B.keeps on.old on.new }
{
    let mut block = [0; BLOCK];
    match on.get(root, Kind::Root, ROOT_PLACE, &mut block) {
        Ok(()) => {}
        Err(why) => return Err(why),
    }
    match with_record(alloc, &block, root, named) {
        Ok(ready) => Ok(ready),
        Err(why) => Err(why),
    }
}
