//! Replies read from their bodies.
ghost use Rattle.nine_fields.specs.Reading.{Gives, Reads, brief_at};
ghost use Rattle.nine_wire.specs.Message.{reply_message, reply_shapes};
ghost use Rattle.nine_wire.specs.Reading.{message_at, whole_at};

use crate::ename::Ename;
use crate::message::Reply;
use crate::request_fields::{bytes_at, stat_record_at, string_at};
use nine_fields::{Malformed, ReadError, brief_at, qid_at, qids_at, u32_at};
use std::alloc::Global;

/// The text of an error.
fn ename_at(bytes: &[u8]) -> Result<(Ename, &[u8]), Malformed>
    ensures { Reads (λ x. (x.0, x.1.now)) result (brief_at bytes.now) }
{
    let (text, rest) = brief_at(bytes)?;
    Ok((Ename::from_text(text), rest))
}

#[tactic(auto, unfolding(crate::specs::Reading::message_at, nine_fields::specs::Reading::fields_at, nine_fields::specs::Reading::field_at, nine_fields::specs::Reading::plain_at))]
fn version_at(alloc: Global, bytes: &[u8]) -> Result<(Reply, &[u8]), ReadError>
    ensures { Gives (λ x. (reply_message x.0, x.1.now)) result (message_at reply_shapes 101 bytes.now) }
{
    let (msize, rest) = u32_at(bytes)?;
    let (version, rest) = string_at(alloc, rest)?;
    Ok((Reply::Version { msize, version }, rest))
}

#[tactic(auto, unfolding(crate::specs::Reading::message_at, nine_fields::specs::Reading::fields_at, nine_fields::specs::Reading::field_at, nine_fields::specs::Reading::plain_at))]
fn auth_at(bytes: &[u8]) -> Result<(Reply, &[u8]), ReadError>
    ensures { Gives (λ x. (reply_message x.0, x.1.now)) result (message_at reply_shapes 103 bytes.now) }
{
    let (aqid, rest) = qid_at(bytes)?;
    Ok((Reply::Auth { aqid }, rest))
}

#[tactic(auto, unfolding(crate::specs::Reading::message_at, nine_fields::specs::Reading::fields_at, nine_fields::specs::Reading::field_at, nine_fields::specs::Reading::plain_at))]
fn attach_at(bytes: &[u8]) -> Result<(Reply, &[u8]), ReadError>
    ensures { Gives (λ x. (reply_message x.0, x.1.now)) result (message_at reply_shapes 105 bytes.now) }
{
    let (qid, rest) = qid_at(bytes)?;
    Ok((Reply::Attach { qid }, rest))
}

#[tactic(auto, unfolding(crate::specs::Reading::message_at, nine_fields::specs::Reading::fields_at, nine_fields::specs::Reading::field_at, nine_fields::specs::Reading::plain_at))]
fn error_at(bytes: &[u8]) -> Result<(Reply, &[u8]), ReadError>
    ensures { Gives (λ x. (reply_message x.0, x.1.now)) result (message_at reply_shapes 107 bytes.now) }
{
    let (ename, rest) = ename_at(bytes)?;
    Ok((Reply::Error { ename }, rest))
}

#[tactic(auto, unfolding(crate::specs::Reading::message_at, nine_fields::specs::Reading::fields_at, nine_fields::specs::Reading::field_at, nine_fields::specs::Reading::plain_at))]
fn walk_at(alloc: Global, bytes: &[u8]) -> Result<(Reply, &[u8]), ReadError>
    ensures { Gives (λ x. (reply_message x.0, x.1.now)) result (message_at reply_shapes 111 bytes.now) }
{
    let (qids, rest) = qids_at(alloc, bytes)?;
    Ok((Reply::Walk { qids }, rest))
}

#[tactic(auto, unfolding(crate::specs::Reading::message_at, nine_fields::specs::Reading::fields_at, nine_fields::specs::Reading::field_at, nine_fields::specs::Reading::plain_at))]
fn open_at(bytes: &[u8]) -> Result<(Reply, &[u8]), ReadError>
    ensures { Gives (λ x. (reply_message x.0, x.1.now)) result (message_at reply_shapes 113 bytes.now) }
{
    let (qid, rest) = qid_at(bytes)?;
    let (iounit, rest) = u32_at(rest)?;
    Ok((Reply::Open { qid, iounit }, rest))
}

#[tactic(auto, unfolding(crate::specs::Reading::message_at, nine_fields::specs::Reading::fields_at, nine_fields::specs::Reading::field_at, nine_fields::specs::Reading::plain_at))]
fn create_at(bytes: &[u8]) -> Result<(Reply, &[u8]), ReadError>
    ensures { Gives (λ x. (reply_message x.0, x.1.now)) result (message_at reply_shapes 115 bytes.now) }
{
    let (qid, rest) = qid_at(bytes)?;
    let (iounit, rest) = u32_at(rest)?;
    Ok((Reply::Create { qid, iounit }, rest))
}

#[tactic(auto, unfolding(crate::specs::Reading::message_at, nine_fields::specs::Reading::fields_at, nine_fields::specs::Reading::field_at, nine_fields::specs::Reading::plain_at))]
fn read_at(alloc: Global, bytes: &[u8]) -> Result<(Reply, &[u8]), ReadError>
    ensures { Gives (λ x. (reply_message x.0, x.1.now)) result (message_at reply_shapes 117 bytes.now) }
{
    let (bytes, rest) = bytes_at(alloc, bytes)?;
    Ok((Reply::Read { bytes }, rest))
}

#[tactic(auto, unfolding(crate::specs::Reading::message_at, nine_fields::specs::Reading::fields_at, nine_fields::specs::Reading::field_at, nine_fields::specs::Reading::plain_at))]
fn write_at(bytes: &[u8]) -> Result<(Reply, &[u8]), ReadError>
    ensures { Gives (λ x. (reply_message x.0, x.1.now)) result (message_at reply_shapes 119 bytes.now) }
{
    let (count, rest) = u32_at(bytes)?;
    Ok((Reply::Write { count }, rest))
}

#[tactic(auto, unfolding(crate::specs::Reading::message_at, nine_fields::specs::Reading::fields_at, nine_fields::specs::Reading::field_at, nine_fields::specs::Reading::plain_at))]
fn stat_at(alloc: Global, bytes: &[u8]) -> Result<(Reply, &[u8]), ReadError>
    ensures { Gives (λ x. (reply_message x.0, x.1.now)) result (message_at reply_shapes 125 bytes.now) }
{
    let (stat, rest) = stat_record_at(alloc, bytes)?;
    Ok((Reply::Stat { stat }, rest))
}

/// A reply of this type, and the bytes after it.
#[tactic(auto, unfolding(crate::specs::Reading::message_at, nine_fields::specs::Reading::fields_at))]
fn reply_at(alloc: Global, kind: u8, bytes: &[u8]) -> Result<(Reply, &[u8]), ReadError>
    ensures { Gives (λ x. (reply_message x.0, x.1.now)) result (message_at reply_shapes kind bytes.now) }
{
    match kind {
        101 => version_at(alloc, bytes),
        103 => auth_at(bytes),
        105 => attach_at(bytes),
        107 => error_at(bytes),
        109 => Ok((Reply::Flush, bytes)),
        111 => walk_at(alloc, bytes),
        113 => open_at(bytes),
        115 => create_at(bytes),
        117 => read_at(alloc, bytes),
        119 => write_at(bytes),
        121 => Ok((Reply::Clunk, bytes)),
        123 => Ok((Reply::Remove, bytes)),
        125 => stat_at(alloc, bytes),
        127 => Ok((Reply::Wstat, bytes)),
        _ => Err(ReadError::Malformed),
    }
}

/// The reply of this type that all of the bytes are.
#[tactic(auto, unfolding(crate::specs::Reading::whole_at))]
pub fn whole_reply(alloc: Global, kind: u8, bytes: &[u8]) -> Result<Reply, ReadError>
    ensures { Gives reply_message result (whole_at reply_shapes kind bytes.now) }
{
    let (reply, rest) = reply_at(alloc, kind, bytes)?;
    if rest.is_empty() {
        Ok(reply)
    } else {
        Err(ReadError::Malformed)
    }
}
