//! What answers a line.
ghost use Rattle.std.specs.Prelude.{◌≡◌, ◌++◌, OnOk};
ghost use Rattle.fo_script_line.specs.Says.{said, MaySay};

use fo_base::Memory;
use fo_lines::{put_drops, put_flushed, put_flushed_all, put_reply, put_unlinked};
use nine_wire::{Reply, write_msg};
use std::alloc::Global;

/// What answers a line.
#[derive(Drop)]
pub enum Answer {
    /// Nothing is put out.
    Silent,
    /// The reply of a session to the message of this tag.
    Replied { session: u8, tag: u16, reply: Reply },
    /// All fids of a session are gone.
    Dropped(u8),
    /// What a flushing turn did.
    Flushed(fo_lines::Flushed),
    /// What an unlinking turn did.
    Unlinked(fo_lines::Unlinked),
    /// How flushing and unlinking turns ended: with nothing left, or by a fault.
    FlushedAll(Option<u8>),
    /// The line is one that is not built yet.
    NotBuilt,
}

/// Appends the reply of a session.
fn put_message(
    alloc: Global,
    session: u8,
    tag: u16,
    reply: &Reply,
    out: &mut Vec<u8>,
) -> Result<(), Memory>
    requires { MaySay (Answer.Replied session tag reply.now) }
    ensures { OnOk result (out.new.items ≡ out.old.items ++ said (Answer.Replied session tag reply.now)) }
{
    let mut bytes = Vec::new(alloc);
    write_msg(tag, reply, &mut bytes)?;
    put_reply(session, bytes.as_slice(), out)
}

/// Appends what is put out for an answer.
pub fn put_answer(alloc: Global, answer: &Answer, out: &mut Vec<u8>) -> Result<(), Memory>
    requires { MaySay answer.now }
    ensures { OnOk result (out.new.items ≡ out.old.items ++ said answer.now) }
{
    match answer {
        Answer::Silent => Ok(()),
        Answer::Replied {
            session,
            tag,
            reply,
        } => put_message(alloc, *session, *tag, reply, out),
        Answer::Dropped(session) => put_drops(*session, out),
        Answer::Flushed(turn) => put_flushed(*turn, out),
        Answer::Unlinked(turn) => put_unlinked(*turn, out),
        Answer::FlushedAll(fault) => put_flushed_all(*fault, out),
        Answer::NotBuilt => Ok(out.extend_from_slice(b"not built yet\n")?),
    }
}
