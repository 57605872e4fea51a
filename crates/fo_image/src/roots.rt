//! Root blocks, of 8192 bytes.
ghost use Rattle.std.specs.Prelude.{◌≡◌, ◌↔◌, length, Some, IsTrue, IfOk};
ghost use Rattle.std.specs.List.{AllByRecursion};
ghost use Rattle.fo_image.specs.declared.record.RootBlock.{RootBlock};
ghost use Rattle.fo_image.specs.Field.{FieldFits, spelling};
ghost use Rattle.fo_image.specs.Part.{parts_bytes};
ghost use Rattle.fo_image.specs.Record.{RootRecordHolds, RootHolds, SpellsRoot, ReadsInMemory, root_head};

use crate::entries::{entry_of, is_entry, write_entry};
use crate::labels::is_epoch;
use crate::parts::{Part, u16_at, u32_at, write_parts};
use crate::record::{Record, RecordError, RootBlock};
use crate::records::{is_record, record_len, record_of, write_record};
use crate::types::Bad;
use fo_base::BLOCK;
use std::alloc::{AllocError, Global};

fn head_of(epoch: u32, time: u32, prev_epoch: u32, prev: u32) -> [Part<'static>; 5]
    ensures spelled { parts_bytes result ≡ spelling (root_head epoch time prev_epoch prev) }
    ensures fit { AllByRecursion FieldFits (root_head epoch time prev_epoch prev) }
{
    [
        Part::Bytes(b"FOSSILRT"),
        Part::Four(epoch),
        Part::Four(time),
        Part::Four(prev_epoch),
        Part::Four(prev),
    ]
}

/// Whether this can be the record of a root directory.
fn is_root_record(own: &Record) -> bool
    ensures { IsTrue result ↔ RootRecordHolds own.now }
{
    is_record(own)
        && own.name.as_slice() == b"/".as_slice()
        && own.number == 0
        && own.slot == 0
        && own.generation == 0
}

/// Whether the root block has a spelling.
pub fn is_root(root: &RootBlock) -> bool
    ensures { IsTrue result ↔ RootHolds root.now }
{
    is_epoch(root.epoch)
        && root.prev_epoch < 1 << 31
        && (root.prev_epoch == 0) == (root.prev == 0)
        && is_entry(&root.entries)
        && is_entry(&root.meta)
        && is_root_record(&root.own)
}

/// Fills the block with the root block.
pub fn write_root(v: &RootBlock, into: &mut [u8])
    requires spelled { RootHolds v.now }
    requires length { length into.old ≡ 8192 }
    ensures { SpellsRoot v.now into.new }
{
    let end = 104 + record_len(&v.own);
    let head = head_of(v.epoch, v.time, v.prev_epoch, v.prev);
    write_parts(&head, &mut into[..24]);
    write_entry(&v.entries, &mut into[24..64]);
    write_entry(&v.meta, &mut into[64..104]);
    write_record(&v.own, &mut into[104..end]);
    into[end..].fill(0);
}

/// The only root block that this block can spell.
fn root_of(alloc: Global, block: &[u8]) -> Result<Option<RootBlock>, AllocError>
    requires { length block.now ≡ 8192 }
    ensures { (r : RootBlock) → SpellsRoot r block.now → IfOk result (λ read. read ≡ Some r) }
{
    let end = 104 + u16_at(block, 104) as usize;
    if BLOCK < end {
        return Ok(None);
    }
    let Some(own) = record_of(alloc, &block[104..end])? else {
        return Ok(None);
    };
    Ok(Some(RootBlock {
        epoch: u32_at(block, 8),
        time: u32_at(block, 12),
        prev_epoch: u32_at(block, 16),
        prev: u32_at(block, 20),
        entries: entry_of(&block[24..64]),
        meta: entry_of(&block[64..104]),
        own,
    }))
}

/// Whether the block spells the root block.
fn is_root_at(root: &RootBlock, block: &[u8]) -> bool
    requires { length block.now ≡ 8192 }
    ensures { IsTrue result ↔ SpellsRoot root.now block.now }
{
    if !is_root(root) {
        return false;
    }
    let mut again = [0; BLOCK];
    write_root(root, &mut again);
    block == again.as_slice()
}

/// The root block that the block spells, or `Bad::Entry` where it spells none.
pub fn read_root(alloc: Global, block: &[u8]) -> Result<RootBlock, RecordError>
    requires { length block.now ≡ 8192 }
    ensures { ReadsInMemory (λ r. SpellsRoot r block.now) result }
{
    let Some(root) = root_of(alloc, block)? else {
        return Err(RecordError::Bad(Bad::Entry));
    };
    if is_root_at(&root, block) {
        Ok(root)
    } else {
        Err(RecordError::Bad(Bad::Entry))
    }
}
