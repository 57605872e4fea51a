//! Fields written behind other bytes. Where there is no memory, nothing is added.
ghost use Rattle.std.specs.Prelude.{◌≡◌, ◌++◌, ◌<◌, ◌^◌, length, OnOk, OnErr};
ghost use Rattle.std.specs.List.{flat_map, AllByRecursion};
ghost use Rattle.nine_fields.specs.Field.{One, Two, Four, Eight, Texts, Ids, number, block, qid_bytes, spelled, TextFits, QidFits, FieldFits};
ghost use Rattle.nine_fields.specs.Front.{IsFront};

use crate::qid::Qid;
use fo_base::Bytes;
use std::alloc::AllocError;

/// Adds these bytes, and then those.
pub fn put_both(out: &mut Vec<u8>, first: &[u8], second: &[u8]) -> Result<(), AllocError>
    ensures ok { OnOk result (out.new.items ≡ (out.old.items ++ first.now) ++ second.now) }
    ensures err { OnErr result (out.new.items ≡ out.old.items) }
{
    let start = out.len();
    out.extend_from_slice(first)?;
    match out.extend_from_slice(second) {
        Ok(()) => Ok(()),
        Err(e) => {
            out.truncate(start);
            Err(e)
        }
    }
}

/// A number of one byte.
pub fn put_u8(out: &mut Vec<u8>, n: u8) -> Result<(), AllocError>
    ensures ok { OnOk result (out.new.items ≡ out.old.items ++ number One n) }
    ensures err { OnErr result (out.new.items ≡ out.old.items) }
{
    out.extend_from_slice(&n.to_le_bytes())
}

/// A number of two bytes.
pub fn put_u16(out: &mut Vec<u8>, n: u16) -> Result<(), AllocError>
    ensures ok { OnOk result (out.new.items ≡ out.old.items ++ number Two n) }
    ensures err { OnErr result (out.new.items ≡ out.old.items) }
{
    out.extend_from_slice(&n.to_le_bytes())
}

/// A number of four bytes.
pub fn put_u32(out: &mut Vec<u8>, n: u32) -> Result<(), AllocError>
    ensures ok { OnOk result (out.new.items ≡ out.old.items ++ number Four n) }
    ensures err { OnErr result (out.new.items ≡ out.old.items) }
{
    out.extend_from_slice(&n.to_le_bytes())
}

/// A number of eight bytes.
pub fn put_u64(out: &mut Vec<u8>, n: u64) -> Result<(), AllocError>
    ensures ok { OnOk result (out.new.items ≡ out.old.items ++ number Eight n) }
    ensures err { OnErr result (out.new.items ≡ out.old.items) }
{
    out.extend_from_slice(&n.to_le_bytes())
}

/// Bytes behind their number in two bytes, as a string or a stat record in a message.
pub fn put_string(out: &mut Vec<u8>, bytes: &[u8]) -> Result<(), AllocError>
    requires { length bytes.now < 2 ^ 16 }
    ensures ok { OnOk result (out.new.items ≡ out.old.items ++ block Two bytes.now) }
    ensures err { OnErr result (out.new.items ≡ out.old.items) }
{
    put_both(out, &(bytes.len() as u16).to_le_bytes(), bytes)
}

/// A qid.
pub fn put_qid(out: &mut Vec<u8>, qid: Qid) -> Result<(), AllocError>
    ensures ok { OnOk result (out.new.items ≡ out.old.items ++ qid_bytes qid) }
    ensures err { OnErr result (out.new.items ≡ out.old.items) }
    // A qid of these types has a spelling.
    ensures fits { QidFits qid }
{
    let kind = qid.kind.to_le_bytes();
    let vers = qid.vers.to_le_bytes();
    let path = qid.path.to_le_bytes();
    out.extend_from_slice(&[
        kind[0], vers[0], vers[1], vers[2], vers[3], path[0], path[1], path[2], path[3], path[4],
        path[5], path[6], path[7],
    ])
}

/// Strings, one after the other; where memory runs out, some of them.
fn put_strings(out: &mut Vec<u8>, names: &[Bytes]) -> Result<(), AllocError>
    requires { AllByRecursion TextFits names.now }
    ensures ok { OnOk result (out.new.items ≡ out.old.items ++ flat_map (block Two) names.now) }
    ensures err { OnErr result (IsFront out.old.items out.new.items) }
{
    for name in names {
        put_string(out, name.as_slice())?;
    }
    Ok(())
}

/// Strings behind their number in two bytes.
pub fn put_names(out: &mut Vec<u8>, names: &[Bytes]) -> Result<(), AllocError>
    requires { FieldFits (Texts names.now) }
    ensures ok { OnOk result (out.new.items ≡ out.old.items ++ spelled (Texts names.now)) }
    ensures err { OnErr result (out.new.items ≡ out.old.items) }
{
    let start = out.len();
    put_u16(out, names.len() as u16)?;
    match put_strings(out, names) {
        Ok(()) => Ok(()),
        Err(e) => {
            out.truncate(start);
            Err(e)
        }
    }
}

/// Qids, one after the other; where memory runs out, some of them.
fn put_ids(out: &mut Vec<u8>, qids: &[Qid]) -> Result<(), AllocError>
    ensures ok { OnOk result (out.new.items ≡ out.old.items ++ flat_map qid_bytes qids.now) }
    ensures err { OnErr result (IsFront out.old.items out.new.items) }
    ensures fits { OnOk result (AllByRecursion QidFits qids.now) }
{
    for qid in qids {
        put_qid(out, *qid)?;
    }
    Ok(())
}

/// Qids behind their number in two bytes.
pub fn put_qids(out: &mut Vec<u8>, qids: &[Qid]) -> Result<(), AllocError>
    requires { length qids.now < 2 ^ 16 }
    ensures ok { OnOk result (out.new.items ≡ out.old.items ++ spelled (Ids qids.now)) }
    ensures err { OnErr result (out.new.items ≡ out.old.items) }
    // Qids of these types have a spelling.
    ensures fits { OnOk result (FieldFits (Ids qids.now)) }
{
    let start = out.len();
    put_u16(out, qids.len() as u16)?;
    match put_ids(out, qids) {
        Ok(()) => Ok(()),
        Err(e) => {
            out.truncate(start);
            Err(e)
        }
    }
}
