//! Messages and replies.
ghost use Rattle.std.specs.Prelude.{◌<◌};
ghost use Rattle.nine_wire.specs.Message.{RequestFits};

use fo_base::Memory;
use hex::decode;
use nine_wire::{Reply, Request, Step, read_msg, write_msg};
use std::alloc::{AllocError, Global};

/// The number of a session, what is asked, and the bytes of the message and of its reply, in hexadecimal.
pub type Row = (u8, &'static str, &'static str, &'static str);

/// What answers two sessions, of the numbers 0 and 1, over one tree of files. The moment is always 0.
pub trait Server {
    ghost use Rattle.std.specs.Prelude.{◌<◌};
    ghost use Rattle.nine_wire.specs.Message.{RequestFits, ReplyFits};

    /// The reply of a session to a request.
    fn answer(&mut self, session: u8, request: Request) -> Reply
        requires session { session < 2 }
        requires request { RequestFits request }
        ensures fits { ReplyFits result };

    /// Lets the least fid of a session go: whether there was one, and whether its end was refused.
    fn drop_one(&mut self, session: u8) -> (bool, bool)
        requires session { session < 2 };
}

/// Why a conversation was not held as it stands.
#[derive(Debug, Drop, PartialEq, Eq)]
pub enum Wrong {
    Memory,
    /// A row names a session beyond the second, or has a word that is no hexadecimal.
    Row(&'static str),
    /// Another reply than the row's.
    Reply(&'static str),
    /// More or less was settled than it says.
    Settled(&'static str),
    /// A fid was let go otherwise than it says.
    LetGo,
}

impl From<Memory> for Wrong {
    fn from(_: Memory) -> Wrong {
        Wrong::Memory
    }
}

impl From<AllocError> for Wrong {
    fn from(_: AllocError) -> Wrong {
        Wrong::Memory
    }
}

/// Adds the bytes of a word of hexadecimal, and says whether it is one.
fn append(alloc: Global, word: &str, bytes: &mut Vec<u8>) -> Result<bool, Memory> {
    let Ok(part) = decode(alloc, word) else {
        return Ok(false);
    };
    bytes.extend_from_slice(part.as_slice())?;
    Ok(true)
}

/// The bytes of these words of hexadecimal.
fn bytes(alloc: Global, what: &'static str, text: &str) -> Result<Vec<u8>, Wrong> {
    let mut bytes = Vec::new(alloc);
    for word in text.split_whitespace() {
        if !append(alloc, word, &mut bytes)? {
            return Err(Wrong::Row(what));
        }
    }
    Ok(bytes)
}

/// The bytes of the reply to a request.
fn reply_bytes<S: Server>(
    alloc: Global,
    server: &mut S,
    session: u8,
    tag: u16,
    request: Request,
) -> Result<Vec<u8>, Memory>
    requires session { session < 2 }
    requires request { RequestFits request }
{
    let mut out = Vec::new(alloc);
    let reply = server.answer(session, request);
    write_msg(tag, &reply, &mut out)?;
    Ok(out)
}

/// The bytes of the reply to a message; none where there is no whole message.
fn reply_to<S: Server>(
    alloc: Global,
    server: &mut S,
    session: u8,
    message: &[u8],
) -> Result<Vec<u8>, Memory>
    requires { session < 2 }
{
    match read_msg(alloc, message, 65560)? {
        Step::Msg(tag, request, _) => reply_bytes(alloc, server, session, tag, request),
        _ => Ok(Vec::new(alloc)),
    }
}

/// Whether a message is replied to by these bytes.
fn is_replied<S: Server>(
    alloc: Global,
    server: &mut S,
    session: u8,
    message: &[u8],
    wanted: &[u8],
) -> Result<bool, Memory>
    requires { session < 2 }
{
    let got = reply_to(alloc, server, session, message)?;
    Ok(got.as_slice() == wanted)
}

/// A message is replied to by the bytes beside it.
pub fn hold<S: Server>(alloc: Global, server: &mut S, row: &Row) -> Result<(), Wrong> {
    let (session, what, message, wanted) = *row;
    if 2 <= session {
        return Err(Wrong::Row(what));
    }
    let message = bytes(alloc, what, message)?;
    let wanted = bytes(alloc, what, wanted)?;
    if is_replied(
        alloc,
        server,
        session,
        message.as_slice(),
        wanted.as_slice(),
    )? {
        Ok(())
    } else {
        Err(Wrong::Reply(what))
    }
}

/// Each message is replied to by the bytes beside it.
pub fn exchange<S: Server>(alloc: Global, server: &mut S, rows: &[Row]) -> Result<(), Wrong> {
    for row in rows {
        hold(alloc, server, row)?;
    }
    Ok(())
}
