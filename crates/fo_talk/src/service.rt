//! The loop that answers the messages of a stream.
ghost use Rattle.std.specs.Prelude.{◌≡◌, ℕ, ◌<◌, ◌≤◌, ◌^◌, IfSome, IfOk, Err};
ghost use Rattle.fo_base.specs.Cause.{Rose};
ghost use Rattle.fo_world.specs.Answers.{NotFewer};
ghost use Rattle.nine_wire.specs.Message.{RequestFits};
ghost use Rattle.fo_talk.specs.declared.end.LinkEnd.TheVariants as ends;
ghost use Rattle.nine_wire.specs.Version.{largest_message};
ghost use Rattle.fo_talk.specs.Answering.{Answered, next_limit};
ghost use Rattle.fo_talk.specs.Ending.{Ends};
ghost use Rattle.fo_talk.specs.Stopping.{Stopped, end_at};

use crate::end::LinkEnd;
use crate::machine::Machine;
use crate::outbox::{Stop, add_reply, is_whole, may_wait, put_out};
use crate::turns::{ask, is_version, let_all_go};
use fo_links::{Clock, Inbox, Sink, Source};
use nine_wire::{LARGEST_MESSAGE, Reply, Request, Step, read_msg};
use std::alloc::Global;

/// How many bytes the buffer has that input waits in.
const ROOM: usize = 2 * LARGEST_MESSAGE as usize;

/// The most bytes that a message may have after a reply.
fn next_limit(limit: u32, asked: bool, reply: &Reply) -> u32
    ensures { result ≡ next_limit limit asked reply.now }
{
    if !asked {
        return limit;
    }
    match reply {
        Reply::Version { msize, version } if version.as_slice() == b"9P2000".as_slice() => *msize,
        _ => LARGEST_MESSAGE,
    }
}

/// Answers one message, and gives the limit after it. Once it was answered, the machine rests. Its reply waits only where more messages
/// are at hand.
fn answer_one<K: Sink, C: Clock, M: Machine>(
    tag: u16,
    request: Request,
    limit: u32,
    more: bool,
    clock: &mut C,
    machine: &mut M,
    replies: &mut Vec<u8>,
    out: &mut K,
) -> Result<u32, Stop>
    requires limit { limit ≤ largest_message }
    requires fits { RequestFits request }
    ensures answered { Answered M.goes (record { limit = limit; position = record { clock = C.coming clock.old; state = machine.old; faults = M.faults machine.old } })
        tag request (record { clock = C.coming clock.new; state = machine.new; faults = M.faults machine.new }) replies.old.items replies.new.items (K.held out.old) (K.held out.new) result }
    ensures small { IfOk result (λ limit. limit ≤ largest_message) }
    ensures later { NotFewer (M.faults machine.old) (M.faults machine.new) }
    ensures output_later { K.faults out.old ≤ K.faults out.new }
    ensures output { result ≡ Err Stop.Output → Rose (K.faults out.old) (K.faults out.new) }
{
    let asked = is_version(&request);
    let waits = may_wait(&request, more, replies.as_slice());
    let reply = ask(tag, request, clock, machine);
    match add_reply(tag, &reply, waits, replies, out) {
        Ok(()) => {
            machine.rest();
            Ok(next_limit(limit, asked, &reply))
        }
        Err(why) => Err(why),
    }
}

/// How a conversation ends whose input ended, where these bytes wait.
fn end_of_input(waiting: &[u8], place: u64) -> LinkEnd
    ensures { result ≡ end_at waiting.now place }
{
    if waiting.is_empty() {
        LinkEnd::End
    } else {
        LinkEnd::BadMessage(place)
    }
}

/// Answers the messages of the input, one after the other, until it ends.
fn converse<S: Source, K: Sink, C: Clock, M: Machine>(
    alloc: Global,
    input: &mut S,
    out: &mut K,
    clock: &mut C,
    machine: &mut M,
) -> LinkEnd
    ensures talk { IfSome (S.left input.old) (λ bytes. Stopped M.goes (record { limit = largest_message; position = record { clock = C.coming clock.old; state = machine.old; faults = M.faults machine.old } })
        bytes (S.left input.new) (K.held out.old) (K.held out.new) (record { clock = C.coming clock.new; state = machine.new; faults = M.faults machine.new }) result) }
    ensures input { result ≡ LinkEnd.ReadFault → Rose (S.faults input.old) (S.faults input.new) }
    ensures output { result ≡ LinkEnd.WriteFault → Rose (K.faults out.old) (K.faults out.new) }
    ensures input_later { S.faults input.old ≤ S.faults input.new }
    ensures output_later { K.faults out.old ≤ K.faults out.new }
    ensures later { NotFewer (M.faults machine.old) (M.faults machine.new) }
{
    let Ok(mut inbox) = Inbox::<ROOM>::new(alloc) else {
        return LinkEnd::Memory;
    };
    let mut replies = Vec::new(alloc);
    let mut limit = LARGEST_MESSAGE;
    let mut place = 0;
    'messages: loop {
        match read_msg(alloc, inbox.waiting(), limit) {
            Ok(Step::Msg(tag, request, used)) => {
                let more = is_whole(&inbox.waiting()[used..]);
                match answer_one(tag, request, limit, more, clock, machine, &mut replies, out) {
                    Ok(next) => limit = next,
                    Err(Stop::Output) => return LinkEnd::WriteFault,
                    Err(Stop::Memory) => return LinkEnd::Memory,
                }
                inbox.consume(used);
                place += used as u64;
            }
            Ok(Step::More) => {
                let Ok(()) = put_out(&mut replies, out) else {
                    return LinkEnd::WriteFault;
                };
                match inbox.fill(input) {
                    Ok(0) => return end_of_input(inbox.waiting(), place),
                    Ok(_) => {}
                    Err(_) => return LinkEnd::ReadFault,
                }
            }
            Ok(Step::Bad(_)) => {
                let Ok(()) = put_out(&mut replies, out) else {
                    return LinkEnd::WriteFault;
                };
                return LinkEnd::BadMessage(place);
            }
            Err(_) => {
                let Ok(()) = put_out(&mut replies, out) else {
                    return LinkEnd::WriteFault;
                };
                return LinkEnd::Memory;
            }
        }
    }
}

/// Answers the messages of the input (section 5 of the Plan 9 manual), one after the other, until it
/// ends, and then lets all fids go.
pub fn serve<S: Source, K: Sink, C: Clock, M: Machine>(
    alloc: Global,
    input: &mut S,
    out: &mut K,
    clock: &mut C,
    machine: &mut M,
) -> LinkEnd
    // What was said to a source that tells its bytes, by how it ended, and where the machine stands. Each request is asked, and each
    // fid is let go, at a reading of the clock of its own; behind each message that was answered the machine rests once. Replies to messages
    // that came together may be put out together.
    ensures talk { IfSome (S.left input.old) (λ bytes. Ends M.goes (record { limit = largest_message; position = record { clock = C.coming clock.old; state = machine.old; faults = M.faults machine.old } })
        bytes (S.left input.new) (K.held out.old) (K.held out.new) (record { clock = C.coming clock.new; state = machine.new; faults = M.faults machine.new }) result) }

    // A fault is the end only where that count rose in this call, and no count falls.
    ensures input { result ≡ LinkEnd.ReadFault → Rose (S.faults input.old) (S.faults input.new) }
    ensures output { result ≡ LinkEnd.WriteFault → Rose (K.faults out.old) (K.faults out.new) }
    ensures input_later { S.faults input.old ≤ S.faults input.new }
    ensures output_later { K.faults out.old ≤ K.faults out.new }
    ensures later { NotFewer (M.faults machine.old) (M.faults machine.new) }
{
    let end = converse(alloc, input, out, clock, machine);
    let_all_go(clock, machine);
    end
}
