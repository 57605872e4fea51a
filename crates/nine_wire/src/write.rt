//! Messages written.
ghost use Rattle.std.specs.Prelude.{◌≡◌, ◌+◌, ◌++◌, ◌<◌, ◌^◌, length, IfOk, OnOk, OnErr};
ghost use Rattle.std.specs.List.{AllByRecursion};
ghost use Rattle.nine_fields.specs.Field.{One, Two, Four, Eight, number, FieldFits};
ghost use Rattle.nine_wire.specs.Message.{HasSpelling, request_message, reply_message, RequestFits, ReplyFits, body, after_size, spelling};

use crate::message::{Reply, Request};
use fo_base::Memory;
use nine_fields::{put_both, put_names, put_qid, put_qids, put_string, put_u8, put_u16, put_u32};
use std::alloc::AllocError;

/// So much room is taken at once for what a message has before its data; most take less.
const ROOM: usize = 128;

/// Adds a size, a type and a tag.
fn put_header(out: &mut Vec<u8>, size: u32, kind: u8, tag: u16) -> Result<(), AllocError>
    ensures ok { OnOk result (out.new.items ≡ out.old.items ++ (number Four size ++ (number One kind ++ number Two tag))) }
    ensures err { OnErr result (out.new.items ≡ out.old.items) }
{
    let size = size.to_le_bytes();
    let kind = kind.to_le_bytes();
    let tag = tag.to_le_bytes();
    out.extend_from_slice(&[size[0], size[1], size[2], size[3], kind[0], tag[0], tag[1]])
}

/// Adds a message of this type and tag, with a body that comes in two parts.
fn put_message(
    out: &mut Vec<u8>,
    kind: u8,
    tag: u16,
    first: &[u8],
    second: &[u8],
) -> Result<(), AllocError>
    requires { 7 + length (first.now ++ second.now) < 2 ^ 32 }
    ensures ok { OnOk result (out.new.items ≡ out.old.items ++ (number Four (7 + length (first.now ++ second.now)) ++ after_size kind tag (first.now ++ second.now))) }
    ensures err { OnErr result (out.new.items ≡ out.old.items) }
{
    let start = out.len();
    put_header(out, (7 + first.len() + second.len()) as u32, kind, tag)?;
    match put_both(out, first, second) {
        Ok(()) => Ok(()),
        Err(e) => {
            out.truncate(start);
            Err(e)
        }
    }
}

/// Adds a fid, an offset and a count.
fn put_place(out: &mut Vec<u8>, fid: u32, offset: u64, count: u32) -> Result<(), AllocError>
    ensures { OnOk result (out.new.items ≡ out.old.items ++ (number Four fid ++ (number Eight offset ++ number Four count))) }
{
    let fid = fid.to_le_bytes();
    let at = offset.to_le_bytes();
    let count = count.to_le_bytes();
    out.extend_from_slice(&[
        fid[0], fid[1], fid[2], fid[3], at[0], at[1], at[2], at[3], at[4], at[5], at[6], at[7],
        count[0], count[1], count[2], count[3],
    ])
}

/// The type of a request.
fn request_kind(request: &Request) -> u8
    ensures { result ≡ (request_message request.now).kind }
{
    match request {
        Request::Version { .. } => 100,
        Request::Auth { .. } => 102,
        Request::Attach { .. } => 104,
        Request::Flush { .. } => 108,
        Request::Walk { .. } => 110,
        Request::Open { .. } => 112,
        Request::Create { .. } => 114,
        Request::Read { .. } => 116,
        Request::Write { .. } => 118,
        Request::Clunk { .. } => 120,
        Request::Remove { .. } => 122,
        Request::Stat { .. } => 124,
        Request::Wstat { .. } => 126,
    }
}

/// Adds the body of a request but for the data that ends it, which is returned.
fn put_request<'a>(head: &mut Vec<u8>, request: &'a Request) -> Result<&'a [u8], AllocError>
    requires { RequestFits request.now }
    ensures written { IfOk result (λ tail. head.new.items ++ tail.now ≡ head.old.items ++ body (request_message request.now)) }
    ensures fits { OnOk result (AllByRecursion FieldFits (request_message request.now).fields) }
{
    match request {
        Request::Version { msize, version } => {
            put_u32(head, *msize)?;
            put_string(head, version.as_slice())?;
            Ok(&[])
        }
        Request::Auth { afid, uname, aname } => {
            put_u32(head, *afid)?;
            put_string(head, uname.as_slice())?;
            put_string(head, aname.as_slice())?;
            Ok(&[])
        }
        Request::Attach {
            fid,
            afid,
            uname,
            aname,
        } => {
            put_u32(head, *fid)?;
            put_u32(head, *afid)?;
            put_string(head, uname.as_slice())?;
            put_string(head, aname.as_slice())?;
            Ok(&[])
        }
        Request::Flush { oldtag } => {
            put_u16(head, *oldtag)?;
            Ok(&[])
        }
        Request::Walk { fid, newfid, names } => {
            put_u32(head, *fid)?;
            put_u32(head, *newfid)?;
            put_names(head, names.as_slice())?;
            Ok(&[])
        }
        Request::Open { fid, mode } => {
            put_u32(head, *fid)?;
            put_u8(head, *mode)?;
            Ok(&[])
        }
        Request::Create {
            fid,
            name,
            perm,
            mode,
        } => {
            put_u32(head, *fid)?;
            put_string(head, name.as_slice())?;
            put_u32(head, *perm)?;
            put_u8(head, *mode)?;
            Ok(&[])
        }
        Request::Read { fid, offset, count } => {
            put_place(head, *fid, *offset, *count)?;
            Ok(&[])
        }
        Request::Write { fid, offset, bytes } => {
            put_place(head, *fid, *offset, bytes.as_slice().len() as u32)?;
            Ok(bytes.as_slice())
        }
        Request::Clunk { fid } => {
            put_u32(head, *fid)?;
            Ok(&[])
        }
        Request::Remove { fid } => {
            put_u32(head, *fid)?;
            Ok(&[])
        }
        Request::Stat { fid } => {
            put_u32(head, *fid)?;
            Ok(&[])
        }
        Request::Wstat { fid, stat } => {
            put_u32(head, *fid)?;
            put_string(head, stat.as_slice())?;
            Ok(&[])
        }
    }
}

/// The type of a reply.
fn reply_kind(reply: &Reply) -> u8
    ensures { result ≡ (reply_message reply.now).kind }
{
    match reply {
        Reply::Version { .. } => 101,
        Reply::Auth { .. } => 103,
        Reply::Attach { .. } => 105,
        Reply::Error { .. } => 107,
        Reply::Flush => 109,
        Reply::Walk { .. } => 111,
        Reply::Open { .. } => 113,
        Reply::Create { .. } => 115,
        Reply::Read { .. } => 117,
        Reply::Write { .. } => 119,
        Reply::Clunk => 121,
        Reply::Remove => 123,
        Reply::Stat { .. } => 125,
        Reply::Wstat => 127,
    }
}

/// Adds the body of a reply but for the data that ends it, which is returned.
fn put_reply<'a>(head: &mut Vec<u8>, reply: &'a Reply) -> Result<&'a [u8], AllocError>
    requires { ReplyFits reply.now }
    ensures written { IfOk result (λ tail. head.new.items ++ tail.now ≡ head.old.items ++ body (reply_message reply.now)) }
    ensures fits { OnOk result (AllByRecursion FieldFits (reply_message reply.now).fields) }
{
    match reply {
        Reply::Version { msize, version } => {
            put_u32(head, *msize)?;
            put_string(head, version.as_slice())?;
            Ok(&[])
        }
        Reply::Auth { aqid } => {
            put_qid(head, *aqid)?;
            Ok(&[])
        }
        Reply::Attach { qid } => {
            put_qid(head, *qid)?;
            Ok(&[])
        }
        Reply::Error { ename } => {
            put_string(head, ename.as_bytes())?;
            Ok(&[])
        }
        Reply::Flush => Ok(&[]),
        Reply::Walk { qids } => {
            put_qids(head, qids.as_slice())?;
            Ok(&[])
        }
        Reply::Open { qid, iounit } => {
            put_qid(head, *qid)?;
            put_u32(head, *iounit)?;
            Ok(&[])
        }
        Reply::Create { qid, iounit } => {
            put_qid(head, *qid)?;
            put_u32(head, *iounit)?;
            Ok(&[])
        }
        Reply::Read { bytes } => {
            put_u32(head, bytes.as_slice().len() as u32)?;
            Ok(bytes.as_slice())
        }
        Reply::Write { count } => {
            put_u32(head, *count)?;
            Ok(&[])
        }
        Reply::Clunk => Ok(&[]),
        Reply::Remove => Ok(&[]),
        Reply::Stat { stat } => {
            put_string(head, stat.as_slice())?;
            Ok(&[])
        }
        Reply::Wstat => Ok(&[]),
    }
}

/// Adds the bytes of the reply with this tag. An `Err` adds none.
pub fn write_msg(tag: u16, reply: &Reply, out: &mut Vec<u8>) -> Result<(), Memory>
    requires { ReplyFits reply.now }
    // What is added is the message's spelling.
    ensures ok { OnOk result (out.new.items ≡ out.old.items ++ spelling tag (reply_message reply.now)) }
    ensures err { OnErr result (out.new.items ≡ out.old.items) }
    // What is spelled can be read again.
    ensures fits { OnOk result (HasSpelling tag (reply_message reply.now)) }
{
    let mut head = Vec::with_capacity(*out.allocator(), ROOM)?;
    let tail = put_reply(&mut head, reply)?;
    put_message(out, reply_kind(reply), tag, head.as_slice(), tail)?;
    Ok(())
}

/// Adds the bytes of the request with this tag. An `Err` adds none.
pub fn write_request(tag: u16, request: &Request, out: &mut Vec<u8>) -> Result<(), Memory>
    requires { RequestFits request.now }
    // What is added is the message's spelling.
    ensures ok { OnOk result (out.new.items ≡ out.old.items ++ spelling tag (request_message request.now)) }
    ensures err { OnErr result (out.new.items ≡ out.old.items) }
    // What is spelled can be read again.
    ensures fits { OnOk result (HasSpelling tag (request_message request.now)) }
{
    let mut head = Vec::new(*out.allocator());
    let tail = put_request(&mut head, request)?;
    put_message(out, request_kind(request), tag, head.as_slice(), tail)?;
    Ok(())
}
