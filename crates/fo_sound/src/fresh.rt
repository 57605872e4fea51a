//! What a device that was just formatted holds.
ghost use Rattle.std.specs.Prelude.{◌≡◌, IfOk};
ghost use Rattle.fo_image.specs.Format.{SuperHolds, LabelHolds};
ghost use Rattle.fo_image.specs.Record.{RootHolds};
ghost use Rattle.fo_sound.specs.Sound.{root_label};
ghost use Rattle.fo_sound.specs.Fresh.{fresh_super, fresh_entry, fresh_record, fresh_root};

use crate::label::root_label;
use fo_base::Memory;
use fo_image::{Entry, Label, Pointer, Record, RootBlock, Super, Text, first_data};
use std::alloc::{AllocError, Global};

/// The super block of a device of so many blocks: low and high epoch 1, and the first data block as the active root.
pub fn fresh_super(blocks: u32) -> Super
    ensures is { result ≡ fresh_super blocks }
    ensures holds { SuperHolds result }
{
    Super {
        version: 1,
        low: 1,
        high: 1,
        active: first_data(blocks),
        numbers: 1,
        pending: 0,
        last: None,
    }
}

/// The label of the root block.
pub fn fresh_label(blocks: u32) -> Label
    ensures is { result ≡ root_label (fresh_super blocks) }
    ensures holds { LabelHolds result }
{
    root_label(&fresh_super(blocks))
}

fn fresh_entry(tag: u32) -> Entry
    ensures { result ≡ fresh_entry tag }
{
    Entry {
        generation: 0,
        active: true,
        dir: false,
        depth: 0,
        tag,
        size: 0,
        top: Pointer::Nil,
    }
}

fn fresh_record(alloc: Global, time: u32) -> Result<Record, AllocError>
    ensures { IfOk result (λ r. r ≡ fresh_record time) }
{
    Ok(Record {
        name: Text::copy_of(alloc, b"/")?,
        number: 0,
        slot: 0,
        generation: 0,
        vers: 0,
        mode: 0x8000_01ff,
        atime: time,
        mtime: time,
        uid: Text::copy_of(alloc, b"adm")?,
        gid: Text::copy_of(alloc, b"adm")?,
        muid: Text::copy_of(alloc, b"adm")?,
    })
}

/// The root block: an empty directory `/` of this moment that `adm` owns.
pub fn fresh_root(alloc: Global, time: u32) -> Result<RootBlock, Memory>
    ensures is { IfOk result (λ r. r ≡ fresh_root time) }
    ensures holds { IfOk result RootHolds }
{
    let own = fresh_record(alloc, time)?;
    let mut entries = fresh_entry(32);
    entries.dir = true;
    Ok(RootBlock {
        epoch: 1,
        time,
        prev_epoch: 0,
        prev: 0,
        entries,
        meta: fresh_entry(33),
        own,
    })
}
