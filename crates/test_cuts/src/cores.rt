//! The system over two disks in memory, and what it is asked.
ghost use Rattle.nine_wire.specs.Message.{RequestFits};

use crate::table::{ATTACH, STEPS, VERSION};
use fo_core::{Event, Outcome, State};
use fo_disk::MemDisk;
use nine_wire::{Reply, Request, Step, read_msg};
use std::alloc::Global;
use test_requests::disks::Disks;

/// The system over two disks in memory.
pub type Core = State<MemDisk, MemDisk>;

/// The system on these disks.
pub fn opened(alloc: Global, disks: Disks) -> Option<Core> {
    let Disks { main, arena, .. } = disks;
    match State::open(alloc, main, arena) {
        Ok(core) => Some(core),
        Err(_) => None,
    }
}

/// What the first session is replied to a request.
fn replied(core: &mut Core, request: Request) -> Option<Reply>
    requires { RequestFits request }
{
    let asked = Event::Asked {
        session: 0,
        now: 0,
        request,
    };
    match core.turn(asked) {
        Outcome::Replied(reply) => Some(reply),
        _ => None,
    }
}

/// What the first session is replied to a message, where it is one.
fn reply_to(alloc: Global, core: &mut Core, message: &[u8]) -> Option<Reply> {
    match read_msg(alloc, message, 65560) {
        Ok(Step::Msg(_, request, _)) => replied(core, request),
        _ => None,
    }
}

/// Whether a message is granted.
pub fn is_granted(alloc: Global, core: &mut Core, message: &[u8]) -> bool {
    match reply_to(alloc, core, message) {
        Some(Reply::Error { .. }) | None => false,
        Some(_) => true,
    }
}

/// Whether a Tread is replied to by these bytes.
pub fn reads(alloc: Global, core: &mut Core, message: &[u8], wanted: &[u8]) -> bool {
    match reply_to(alloc, core, message) {
        Some(Reply::Read { bytes }) => bytes.as_slice() == wanted,
        _ => false,
    }
}

/// Whether a session begins.
pub fn begins(alloc: Global, core: &mut Core) -> bool {
    is_granted(alloc, core, VERSION) && is_granted(alloc, core, ATTACH)
}

/// The turns that are taken between two messages: a flushing turn and an unlinking turn. Whether none failed.
fn rests(core: &mut Core) -> bool {
    let flushed = matches!(core.turn(Event::Flush), Outcome::Flushed(Ok(_)));
    flushed && matches!(core.turn(Event::Unlink), Outcome::Unlinked(Ok(_)))
}

/// How far a run came: how many messages were sent, and how many of them were granted.
#[derive(Clone, Copy)]
pub struct Way {
    pub sent: usize,
    pub granted: usize,
}

/// The run, with turns between two messages, up to the first message that is refused or the first turn that fails.
pub fn run(alloc: Global, core: &mut Core) -> Way {
    let mut granted: usize = 0;
    for (message, _, _, _, _) in STEPS {
        let sent = granted.saturating_add(1);
        if !is_granted(alloc, core, message) {
            return Way { sent, granted };
        }
        granted = sent;
        if !rests(core) {
            break;
        }
    }
    Way {
        sent: granted,
        granted,
    }
}
