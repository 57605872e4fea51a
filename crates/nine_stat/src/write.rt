//! Stat records written.
ghost use Rattle.std.specs.Prelude.{◌≡◌, ◌+◌, ◌++◌, ◌<◌, ◌^◌, length, OnOk, OnErr};
ghost use Rattle.std.specs.List.{flat_map, AllByRecursion};
ghost use Rattle.nine_fields.specs.Field.{Two, Four, Eight, Text, number, qid_bytes, block, plain_bytes, PlainFits};
ghost use Rattle.nine_stat.specs.Stat.{stat_fields, spelling, IsSpellable, IsRecord};
ghost use Rattle.nine_stat.specs.Writing.{number_fields, text_fields};

use crate::stat::Stat;
use fo_base::Memory;
use nine_fields::{put_both, put_qid, put_string, put_u16, put_u32, put_u64};
use std::alloc::AllocError;

/// So much room is taken at once for a record; most take less.
const ROOM: usize = 128;

/// Adds the fields that are numbers.
fn put_numbers(out: &mut Vec<u8>, stat: &Stat) -> Result<(), AllocError>
    ensures written { OnOk result (out.new.items ≡ out.old.items ++ flat_map plain_bytes (number_fields stat.now)) }
    ensures fits { OnOk result (AllByRecursion PlainFits (number_fields stat.now)) }
{
    put_u16(out, stat.kind)?;
    put_u32(out, stat.dev)?;
    put_qid(out, stat.qid)?;
    put_u32(out, stat.mode)?;
    put_u32(out, stat.atime)?;
    put_u32(out, stat.mtime)?;
    put_u64(out, stat.length)?;
    Ok(())
}

/// Adds the fields that are texts.
fn put_texts(out: &mut Vec<u8>, stat: &Stat) -> Result<(), AllocError>
    requires { IsSpellable stat.now }
    ensures { OnOk result (out.new.items ≡ out.old.items ++ flat_map plain_bytes (text_fields stat.now)) }
{
    put_string(out, stat.name.as_slice())?;
    put_string(out, stat.uid.as_slice())?;
    put_string(out, stat.gid.as_slice())?;
    put_string(out, stat.muid.as_slice())?;
    Ok(())
}

/// How many bytes the record takes.
pub fn stat_len(stat: &Stat) -> usize
    requires { IsSpellable stat.now }
    ensures { result ≡ length (spelling stat.now) }
{
    49 + stat.name.as_slice().len()
        + stat.uid.as_slice().len()
        + stat.gid.as_slice().len()
        + stat.muid.as_slice().len()
}

/// Adds the record's bytes. An `Err` adds none.
pub fn write_stat(stat: &Stat, out: &mut Vec<u8>) -> Result<(), Memory>
    requires { IsSpellable stat.now }
    ensures ok { OnOk result (out.new.items ≡ out.old.items ++ spelling stat.now) }
    ensures err { OnErr result (out.new.items ≡ out.old.items) }
    // What is added is a record that can be read again, and one that a message may hold.
    ensures fits { OnOk result (IsRecord (spelling stat.now) stat.now) }
{
    let mut inside = Vec::with_capacity(*out.allocator(), ROOM)?;
    put_numbers(&mut inside, stat)?;
    put_texts(&mut inside, stat)?;
    put_string(out, inside.as_slice())?;
    Ok(())
}
