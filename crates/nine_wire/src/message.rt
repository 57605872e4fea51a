//! The messages.
use crate::ename::Ename;
use fo_base::Bytes;
use nine_fields::{Names, Qid, Qids};

/// A message from a client: a T-message without its T, with its fields in the order of the body.
#[derive(Debug, Drop)]
pub enum Request {
    Version {
        msize: u32,
        version: Bytes,
    },
    Auth {
        afid: u32,
        uname: Bytes,
        aname: Bytes,
    },
    Attach {
        fid: u32,
        afid: u32,
        uname: Bytes,
        aname: Bytes,
    },
    Flush {
        oldtag: u16,
    },
    Walk {
        fid: u32,
        newfid: u32,
        names: Names,
    },
    Open {
        fid: u32,
        mode: u8,
    },
    Create {
        fid: u32,
        name: Bytes,
        perm: u32,
        mode: u8,
    },
    Read {
        fid: u32,
        offset: u64,
        count: u32,
    },
    Write {
        fid: u32,
        offset: u64,
        bytes: Bytes,
    },
    Clunk {
        fid: u32,
    },
    Remove {
        fid: u32,
    },
    Stat {
        fid: u32,
    },
    /// The bytes are exactly one stat record.
    Wstat {
        fid: u32,
        stat: Bytes,
    },
}

/// A message to a client: an R-message without its R, with its fields in the order of the body.
#[derive(Debug, Drop)]
pub enum Reply {
    Version { msize: u32, version: Bytes },
    Auth { aqid: Qid },
    Attach { qid: Qid },
    Error { ename: Ename },
    Flush,
    Walk { qids: Qids },
    Open { qid: Qid, iounit: u32 },
    Create { qid: Qid, iounit: u32 },
    Read { bytes: Bytes },
    Write { count: u32 },
    Clunk,
    Remove,
    /// The bytes are exactly one stat record.
    Stat { stat: Bytes },
    Wstat,
}

/// Why the front of a stream is no message.
#[derive(Clone, Copy, Debug, PartialEq, Eq)]
pub enum BadMsg {
    /// The size is below 7 or above the limit.
    Size,
    /// The body is that of no message.
    Body,
}

/// What stands at the front of a stream from a client.
#[derive(Debug, Drop)]
pub enum Step {
    /// Less than a whole message.
    More,
    /// A message with its tag, and how many bytes it takes.
    Msg(u16, Request, usize),
    Bad(BadMsg),
}

/// What stands at the front of a stream from a server.
#[derive(Debug, Drop)]
pub enum ReplyStep {
    /// Less than a whole message.
    More,
    /// A message with its tag, and how many bytes it takes.
    Msg(u16, Reply, usize),
    Bad(BadMsg),
}
