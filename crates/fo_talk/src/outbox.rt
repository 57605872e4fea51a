//! Replies that wait, so that those to messages that came together go out together.
ghost use Rattle.std.specs.Prelude.{◌≡◌, ◌≤◌, ◌++◌, true, Err, MatchResult};
ghost use Rattle.fo_base.specs.Cause.{Rose};
ghost use Rattle.nine_wire.specs.Message.{ReplyFits, reply_message, spelling};
ghost use Rattle.fo_talk.specs.declared.outbox.Stop.TheVariants as stops;
ghost use Rattle.fo_talk.specs.Conversation.{only_looks};
ghost use Rattle.fo_talk.specs.Answering.{Adds, PutsAll, PutsFront, Stays};

use fo_links::Sink;
use nine_wire::{Reply, Request, write_msg};

/// At so many bytes replies wait no longer.
const ENOUGH: usize = 1 << 13;

/// Why a message was not answered to the end.
#[derive(Clone, Copy, Debug, PartialEq, Eq)]
pub enum Stop {
    Output,
    Memory,
}

/// Whether a request changes no file. Behind one that does the machine has work, for which its reply is not to wait.
fn only_looks(request: &Request) -> bool
    ensures { result ≡ only_looks request.now }
{
    match request {
        Request::Attach { .. } => true,
        Request::Flush { .. } => true,
        Request::Walk { .. } => true,
        Request::Open { mode, .. } => *mode < 4,
        Request::Read { .. } => true,
        Request::Stat { .. } => true,
        _ => false,
    }
}

/// Whether the reply to a request may wait with these, by whether more messages are at hand.
pub fn may_wait(request: &Request, more: bool, replies: &[u8]) -> bool
    ensures { result ≡ true → only_looks request.now ≡ true }
{
    more && replies.len() < ENOUGH && only_looks(request)
}

/// Whether a whole message stands at the front, by its size.
pub fn is_whole(bytes: &[u8]) -> bool {
    if bytes.len() < 4 {
        return false;
    }
    u32::from_le_bytes([bytes[0], bytes[1], bytes[2], bytes[3]]) as usize <= bytes.len()
}

/// Puts out the replies that wait.
pub fn put_out<K: Sink>(replies: &mut Vec<u8>, out: &mut K) -> Result<(), Stop>
    ensures puts { MatchResult result (λ _. PutsAll replies.old.items replies.new.items (K.held out.old) (K.held out.new))
        (λ why. (why ≡ stops.Output) × PutsFront replies.old.items (K.held out.old) (K.held out.new)) }
    ensures later { K.faults out.old ≤ K.faults out.new }
    ensures cause { result ≡ Err stops.Output → Rose (K.faults out.old) (K.faults out.new) }
{
    if replies.is_empty() {
        return Ok(());
    }
    let Ok(()) = out.put(replies.as_slice()) else {
        return Err(Stop::Output);
    };
    replies.clear();
    Ok(())
}

/// Adds a reply to those that wait, and puts them out if it may not wait. Where there is no memory for it the others are put out.
pub fn add_reply<K: Sink>(
    tag: u16,
    reply: &Reply,
    waits: bool,
    replies: &mut Vec<u8>,
    out: &mut K,
) -> Result<(), Stop>
    requires fits { ReplyFits reply.now }
    ensures adds { MatchResult result (λ _. Adds waits replies.old.items (spelling tag (reply_message reply.now)) replies.new.items (K.held out.old) (K.held out.new))
        (λ why. Stays replies.old.items (spelling tag (reply_message reply.now)) (K.held out.old) (K.held out.new) why) }
    ensures later { K.faults out.old ≤ K.faults out.new }
    ensures cause { result ≡ Err stops.Output → Rose (K.faults out.old) (K.faults out.new) }
{
    let Ok(()) = write_msg(tag, reply, replies) else {
        let Ok(()) = put_out(replies, out) else {
            return Err(Stop::Output);
        };
        return Err(Stop::Memory);
    };
    if waits {
        return Ok(());
    }
    put_out(replies, out)
}
