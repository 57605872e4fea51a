//! The root directory's own record is put.
ghost use Rattle.std.specs.Prelude.{◌≡◌, ◌⊎◌, ◌+◌, ◌≤◌, ℕ, length, IfErr, OnOk, OnErr, ◌∷◌, []};
ghost use Rattle.fo_base.specs.Cause.{Rose};
ghost use Rattle.fo_image.specs.Record.{RootRecordHolds};
ghost use Rattle.fo_ports.specs.declared.error.BlockError.TheVariants.{Damaged, Memory};
ghost use Rattle.fo_ports.specs.Causes.{Caused};
ghost use Rattle.fo_ports.specs.State.{Looks};
ghost use Rattle.fo_files_record.specs.Own.{HasOwn, IsRootAt, PutsOwn};
ghost use Rattle.fo_ports.specs.Sources.{DirtiesIn};

use fo_base::BLOCK;
use fo_image::{Kind, Record, RecordError, RootBlock, read_root, write_root};
use fo_ports::{BlockError, Blocks};
use std::alloc::Global;

/// Where the root directory's own record stands in a root block.
const OWN: u32 = 104;

/// The rank of the place of a root block.
const ROOT_PLACE: u32 = 2144;

/// The same root block with another record of its own.
fn with_own(root: RootBlock, named: Record) -> RootBlock
    ensures { result ≡ record root { own = named } }
{
    let RootBlock {
        epoch,
        time,
        prev_epoch,
        prev,
        entries,
        meta,
        own,
    } = root;
    let _ = own;
    RootBlock {
        epoch,
        time,
        prev_epoch,
        prev,
        entries,
        meta,
        own: named,
    }
}

/// Fills a block with the root block that is read from another, with this record of its own. That one is damaged where it spells none.
pub fn rewritten(
    alloc: Global,
    block: &[u8],
    root: u32,
    named: Record,
    into: &mut [u8],
) -> Result<(), BlockError>
    requires length { (length block.now ≡ 8192) × (length into.old ≡ 8192) }
    requires spelled { RootRecordHolds named }
    ensures own { OnOk result (HasOwn named block.now into.new) }
    ensures length { length into.new ≡ 8192 }
    ensures cause { IfErr result (λ e. (e ≡ Memory) ⊎ (e ≡ Damaged root)) }
{
    match read_root(alloc, block) {
        Ok(told) => {
            write_root(&with_own(told, named), into);
            Ok(())
        }
        Err(RecordError::Memory) => Err(BlockError::Memory),
        Err(_) => Err(BlockError::Damaged(root)),
    }
}

/// Puts the root directory's own record into its root block. Where it is refused all was only looked at.
pub fn put_own_record<B: Blocks>(
    alloc: Global,
    on: &mut B,
    root: u32,
    named: Record,
) -> Result<(), BlockError>
    requires silent { (B.state on.old).tells → ⊥ }
    requires root { IsRootAt (B.state on.old) root }
    requires spelled { RootRecordHolds named }
    ensures puts { OnOk result ((b : B) × PutsOwn (B.state on.old) (B.state b) (B.state on.new) root named) }
    ensures nothing { OnErr result (Looks (B.state on.old) (B.state on.new)) }
    ensures root { IsRootAt (B.state on.new) root }
    ensures left { ((B.state on.new).spare ≡ (B.state on.old).spare) × ((B.state on.new).pins_left ≡ (B.state on.old).pins_left) × ((B.state on.new).room ≡ (B.state on.old).room) × ((B.state on.new).usable ≡ (B.state on.old).usable) }
    ensures cause { IfErr result (Caused ⊥ (B.state on.old).is_block (Rose (B.state on.old).faults (B.state on.new).faults) ⊥) }
    ensures dirties { DirtiesIn (root ∷ []) (B.state on.old) (B.state on.new) }
    ensures keeps { B.keeps on.old on.new }
{
    let mut block = [0; BLOCK];
    match on.get(root, Kind::Root, ROOT_PLACE, &mut block) {
        Ok(()) => {}
        Err(why) => return Err(why),
    }
    let mut whole = [0; BLOCK];
    match rewritten(alloc, &block, root, named, &mut whole) {
        Ok(()) => {
            on.put_bytes(root, OWN, &whole[OWN as usize..]);
            Ok(())
        }
        Err(why) => Err(why),
    }
}
