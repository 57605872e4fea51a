//! The messages of 9P2000 as bytes (section 5 of the Plan 9 manual).
#![tactic(auto)]

mod ename;
mod frame;
mod message;
mod read;
mod reply_fields;
mod request_fields;
mod write;

pub use ename::Ename;
pub use fo_base::{Bytes as Str, Memory};
pub use message::{BadMsg, Reply, ReplyStep, Request, Step};
pub use nine_fields::{Names, Qid, Qids};
pub use read::{read_msg, read_reply};
pub use write::{write_msg, write_request};

/// The most bytes that a message may have.
pub const LARGEST_MESSAGE: u32 = 65560;
