//! What stands at the front of a stream.
ghost use Rattle.std.specs.Prelude.{◌≡◌, IfOk};
ghost use Rattle.nine_wire.specs.declared.message.Request.{Request};
ghost use Rattle.nine_wire.specs.declared.message.Reply.{Reply};
ghost use Rattle.nine_wire.specs.Message.{request_message, reply_message};
ghost use Rattle.nine_wire.specs.Stands.{Front, IsFront, step_front, reply_front};

use crate::frame::{Frame, frame_at};
use crate::message::{BadMsg, ReplyStep, Step};
use crate::reply_fields::whole_reply;
use crate::request_fields::whole_request;
use fo_base::Memory;
use nine_fields::ReadError;
use std::alloc::Global;

/// What stands at the front of bytes from a client, where a message has at most `msize` of them.
pub fn read_msg(alloc: Global, bytes: &[u8], msize: u32) -> Result<Step, Memory>
    // What the answer says is so: a whole message with its tag stands there; or only a part of one;
    // or a size that is not allowed; or a whole body that is no message's.
    ensures found { IfOk result (λ step. IsFront request_message msize bytes.now (step_front step)) }
    // What is so is the answer, unless memory runs out.
    ensures only { (front : Front Request) → IsFront request_message msize bytes.now front
        → IfOk result (λ step. step_front step ≡ front) }
{
    match frame_at(bytes, msize) {
        Frame::More => Ok(Step::More),
        Frame::BadSize => Ok(Step::Bad(BadMsg::Size)),
        Frame::Whole(kind, tag, inside, size) => match whole_request(alloc, kind, inside) {
            Ok(request) => Ok(Step::Msg(tag, request, size)),
            Err(ReadError::Malformed) => Ok(Step::Bad(BadMsg::Body)),
            Err(ReadError::Memory) => Err(Memory),
        },
    }
}

/// What stands at the front of bytes from a server, where a message has at most `msize` of them.
pub fn read_reply(alloc: Global, bytes: &[u8], msize: u32) -> Result<ReplyStep, Memory>
    // What the answer says is so: a whole message with its tag stands there; or only a part of one;
    // or a size that is not allowed; or a whole body that is no message's.
    ensures found { IfOk result (λ step. IsFront reply_message msize bytes.now (reply_front step)) }
    // What is so is the answer, unless memory runs out.
    ensures only { (front : Front Reply) → IsFront reply_message msize bytes.now front
        → IfOk result (λ step. reply_front step ≡ front) }
{
    match frame_at(bytes, msize) {
        Frame::More => Ok(ReplyStep::More),
        Frame::BadSize => Ok(ReplyStep::Bad(BadMsg::Size)),
        Frame::Whole(kind, tag, inside, size) => match whole_reply(alloc, kind, inside) {
            Ok(reply) => Ok(ReplyStep::Msg(tag, reply, size)),
            Err(ReadError::Malformed) => Ok(ReplyStep::Bad(BadMsg::Body)),
            Err(ReadError::Memory) => Err(Memory),
        },
    }
}
