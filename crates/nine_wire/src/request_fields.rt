//! Requests read from their bodies.
ghost use Rattle.nine_fields.specs.Field.{Four};
ghost use Rattle.nine_fields.specs.Reading.{Gives, text_at, block_at, record_at};
ghost use Rattle.nine_wire.specs.Message.{request_message, request_shapes};
ghost use Rattle.nine_wire.specs.Reading.{message_at, whole_at};

use crate::message::Request;
use fo_base::Bytes;
use nine_fields::{
    ReadError, data_at, names_at, record_at, text_at, u8_at, u16_at, u32_at, u64_at,
};
use std::alloc::Global;

/// A string.
pub fn string_at(alloc: Global, bytes: &[u8]) -> Result<(Bytes, &[u8]), ReadError>
    ensures { Gives (λ x. (x.0, x.1.now)) result (text_at bytes.now) }
{
    let (text, rest) = text_at(bytes)?;
    Ok((Bytes::copy_of(alloc, text)?, rest))
}

/// Bytes behind their number in four bytes.
pub fn bytes_at(alloc: Global, bytes: &[u8]) -> Result<(Bytes, &[u8]), ReadError>
    ensures { Gives (λ x. (x.0, x.1.now)) result (block_at Four bytes.now) }
{
    let (data, rest) = data_at(bytes)?;
    Ok((Bytes::copy_of(alloc, data)?, rest))
}

/// A stat record behind the number of its bytes.
pub fn stat_record_at(alloc: Global, bytes: &[u8]) -> Result<(Bytes, &[u8]), ReadError>
    ensures { Gives (λ x. (x.0, x.1.now)) result (record_at bytes.now) }
{
    let (record, rest) = record_at(bytes)?;
    Ok((Bytes::copy_of(alloc, record)?, rest))
}

#[tactic(auto, unfolding(crate::specs::Reading::message_at, nine_fields::specs::Reading::fields_at, nine_fields::specs::Reading::field_at, nine_fields::specs::Reading::plain_at))]
fn version_at(alloc: Global, bytes: &[u8]) -> Result<(Request, &[u8]), ReadError>
    ensures { Gives (λ x. (request_message x.0, x.1.now)) result (message_at request_shapes 100 bytes.now) }
{
    let (msize, rest) = u32_at(bytes)?;
    let (version, rest) = string_at(alloc, rest)?;
    Ok((Request::Version { msize, version }, rest))
}

#[tactic(auto, unfolding(crate::specs::Reading::message_at, nine_fields::specs::Reading::fields_at, nine_fields::specs::Reading::field_at, nine_fields::specs::Reading::plain_at))]
fn auth_at(alloc: Global, bytes: &[u8]) -> Result<(Request, &[u8]), ReadError>
    ensures { Gives (λ x. (request_message x.0, x.1.now)) result (message_at request_shapes 102 bytes.now) }
{
    let (afid, rest) = u32_at(bytes)?;
    let (uname, rest) = string_at(alloc, rest)?;
    let (aname, rest) = string_at(alloc, rest)?;
    Ok((Request::Auth { afid, uname, aname }, rest))
}

#[tactic(auto, unfolding(crate::specs::Reading::message_at, nine_fields::specs::Reading::fields_at, nine_fields::specs::Reading::field_at, nine_fields::specs::Reading::plain_at))]
fn attach_at(alloc: Global, bytes: &[u8]) -> Result<(Request, &[u8]), ReadError>
    ensures { Gives (λ x. (request_message x.0, x.1.now)) result (message_at request_shapes 104 bytes.now) }
{
    let (fid, rest) = u32_at(bytes)?;
    let (afid, rest) = u32_at(rest)?;
    let (uname, rest) = string_at(alloc, rest)?;
    let (aname, rest) = string_at(alloc, rest)?;
    Ok((
        Request::Attach {
            fid,
            afid,
            uname,
            aname,
        },
        rest,
    ))
}

#[tactic(auto, unfolding(crate::specs::Reading::message_at, nine_fields::specs::Reading::fields_at, nine_fields::specs::Reading::field_at, nine_fields::specs::Reading::plain_at))]
fn flush_at(bytes: &[u8]) -> Result<(Request, &[u8]), ReadError>
    ensures { Gives (λ x. (request_message x.0, x.1.now)) result (message_at request_shapes 108 bytes.now) }
{
    let (oldtag, rest) = u16_at(bytes)?;
    Ok((Request::Flush { oldtag }, rest))
}

#[tactic(auto, unfolding(crate::specs::Reading::message_at, nine_fields::specs::Reading::fields_at, nine_fields::specs::Reading::field_at, nine_fields::specs::Reading::plain_at))]
fn walk_at(alloc: Global, bytes: &[u8]) -> Result<(Request, &[u8]), ReadError>
    ensures { Gives (λ x. (request_message x.0, x.1.now)) result (message_at request_shapes 110 bytes.now) }
{
    let (fid, rest) = u32_at(bytes)?;
    let (newfid, rest) = u32_at(rest)?;
    let (names, rest) = names_at(alloc, rest)?;
    Ok((Request::Walk { fid, newfid, names }, rest))
}

#[tactic(auto, unfolding(crate::specs::Reading::message_at, nine_fields::specs::Reading::fields_at, nine_fields::specs::Reading::field_at, nine_fields::specs::Reading::plain_at))]
fn open_at(bytes: &[u8]) -> Result<(Request, &[u8]), ReadError>
    ensures { Gives (λ x. (request_message x.0, x.1.now)) result (message_at request_shapes 112 bytes.now) }
{
    let (fid, rest) = u32_at(bytes)?;
    let (mode, rest) = u8_at(rest)?;
    Ok((Request::Open { fid, mode }, rest))
}

#[tactic(auto, unfolding(crate::specs::Reading::message_at, nine_fields::specs::Reading::fields_at, nine_fields::specs::Reading::field_at, nine_fields::specs::Reading::plain_at))]
fn create_at(alloc: Global, bytes: &[u8]) -> Result<(Request, &[u8]), ReadError>
    ensures { Gives (λ x. (request_message x.0, x.1.now)) result (message_at request_shapes 114 bytes.now) }
{
    let (fid, rest) = u32_at(bytes)?;
    let (name, rest) = string_at(alloc, rest)?;
    let (perm, rest) = u32_at(rest)?;
    let (mode, rest) = u8_at(rest)?;
    Ok((
        Request::Create {
            fid,
            name,
            perm,
            mode,
        },
        rest,
    ))
}

#[tactic(auto, unfolding(crate::specs::Reading::message_at, nine_fields::specs::Reading::fields_at, nine_fields::specs::Reading::field_at, nine_fields::specs::Reading::plain_at))]
fn read_at(bytes: &[u8]) -> Result<(Request, &[u8]), ReadError>
    ensures { Gives (λ x. (request_message x.0, x.1.now)) result (message_at request_shapes 116 bytes.now) }
{
    let (fid, rest) = u32_at(bytes)?;
    let (offset, rest) = u64_at(rest)?;
    let (count, rest) = u32_at(rest)?;
    Ok((Request::Read { fid, offset, count }, rest))
}

#[tactic(auto, unfolding(crate::specs::Reading::message_at, nine_fields::specs::Reading::fields_at, nine_fields::specs::Reading::field_at, nine_fields::specs::Reading::plain_at))]
fn write_at(alloc: Global, bytes: &[u8]) -> Result<(Request, &[u8]), ReadError>
    ensures { Gives (λ x. (request_message x.0, x.1.now)) result (message_at request_shapes 118 bytes.now) }
{
    let (fid, rest) = u32_at(bytes)?;
    let (offset, rest) = u64_at(rest)?;
    let (bytes, rest) = bytes_at(alloc, rest)?;
    Ok((Request::Write { fid, offset, bytes }, rest))
}

#[tactic(auto, unfolding(crate::specs::Reading::message_at, nine_fields::specs::Reading::fields_at, nine_fields::specs::Reading::field_at, nine_fields::specs::Reading::plain_at))]
fn clunk_at(bytes: &[u8]) -> Result<(Request, &[u8]), ReadError>
    ensures { Gives (λ x. (request_message x.0, x.1.now)) result (message_at request_shapes 120 bytes.now) }
{
    let (fid, rest) = u32_at(bytes)?;
    Ok((Request::Clunk { fid }, rest))
}

#[tactic(auto, unfolding(crate::specs::Reading::message_at, nine_fields::specs::Reading::fields_at, nine_fields::specs::Reading::field_at, nine_fields::specs::Reading::plain_at))]
fn remove_at(bytes: &[u8]) -> Result<(Request, &[u8]), ReadError>
    ensures { Gives (λ x. (request_message x.0, x.1.now)) result (message_at request_shapes 122 bytes.now) }
{
    let (fid, rest) = u32_at(bytes)?;
    Ok((Request::Remove { fid }, rest))
}

#[tactic(auto, unfolding(crate::specs::Reading::message_at, nine_fields::specs::Reading::fields_at, nine_fields::specs::Reading::field_at, nine_fields::specs::Reading::plain_at))]
fn stat_at(bytes: &[u8]) -> Result<(Request, &[u8]), ReadError>
    ensures { Gives (λ x. (request_message x.0, x.1.now)) result (message_at request_shapes 124 bytes.now) }
{
    let (fid, rest) = u32_at(bytes)?;
    Ok((Request::Stat { fid }, rest))
}

#[tactic(auto, unfolding(crate::specs::Reading::message_at, nine_fields::specs::Reading::fields_at, nine_fields::specs::Reading::field_at, nine_fields::specs::Reading::plain_at))]
fn wstat_at(alloc: Global, bytes: &[u8]) -> Result<(Request, &[u8]), ReadError>
    ensures { Gives (λ x. (request_message x.0, x.1.now)) result (message_at request_shapes 126 bytes.now) }
{
    let (fid, rest) = u32_at(bytes)?;
    let (stat, rest) = stat_record_at(alloc, rest)?;
    Ok((Request::Wstat { fid, stat }, rest))
}

/// A request of this type, and the bytes after it.
#[tactic(auto, unfolding(crate::specs::Reading::message_at, nine_fields::specs::Reading::fields_at))]
fn request_at(alloc: Global, kind: u8, bytes: &[u8]) -> Result<(Request, &[u8]), ReadError>
    ensures { Gives (λ x. (request_message x.0, x.1.now)) result (message_at request_shapes kind bytes.now) }
{
    match kind {
        100 => version_at(alloc, bytes),
        102 => auth_at(alloc, bytes),
        104 => attach_at(alloc, bytes),
        108 => flush_at(bytes),
        110 => walk_at(alloc, bytes),
        112 => open_at(bytes),
        114 => create_at(alloc, bytes),
        116 => read_at(bytes),
        118 => write_at(alloc, bytes),
        120 => clunk_at(bytes),
        122 => remove_at(bytes),
        124 => stat_at(bytes),
        126 => wstat_at(alloc, bytes),
        _ => Err(ReadError::Malformed),
    }
}

/// The request of this type that all of the bytes are.
#[tactic(auto, unfolding(crate::specs::Reading::whole_at))]
pub fn whole_request(alloc: Global, kind: u8, bytes: &[u8]) -> Result<Request, ReadError>
    ensures { Gives request_message result (whole_at request_shapes kind bytes.now) }
{
    let (request, rest) = request_at(alloc, kind, bytes)?;
    if rest.is_empty() {
        Ok(request)
    } else {
        Err(ReadError::Malformed)
    }
}
