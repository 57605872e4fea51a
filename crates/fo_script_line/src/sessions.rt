//! What happens to sessions.
ghost use Rattle.std.specs.Prelude.{◌≡◌, ◌<◌};
ghost use Rattle.nine_wire.specs.Message.{RequestFits, ReplyFits};
ghost use Rattle.fo_world.specs.Answers.{NotFewer};
ghost use Rattle.fo_script_line.specs.Sessions.{is_version, agreed_size, LetsGo, AllLetGo, Clears, Asks};

use fo_events::Turner;
use nine_wire::{LARGEST_MESSAGE, Reply, Request};

/// Whether a request is a Tversion.
pub fn is_version(request: &Request) -> bool
    ensures { result ≡ is_version request.now }
{
    matches!(request, Request::Version { .. })
}

/// The most bytes that a message may have after this reply to a Tversion.
pub fn agreed_size(reply: &Reply) -> u32
    ensures { result ≡ agreed_size reply.now }
{
    match reply {
        Reply::Version { msize, version } if version.as_slice() == b"9P2000".as_slice() => *msize,
        _ => LARGEST_MESSAGE,
    }
}

/// Lets all fids of a session go, one after another.
pub fn let_all_go<T: Turner>(session: u8, now: u32, on: &mut T)
    requires { session < 16 }
    ensures gone { LetsGo T.goes session now on.old on.new }
    ensures later { NotFewer (T.faults on.old) (T.faults on.new) }
{
    'fids: loop {
        let (more, _) = on.drop_one(session, now);
        if !more {
            return;
        }
    }
}

/// Lets all fids of all sessions go.
pub fn let_everyone_go<T: Turner>(now: u32, on: &mut T)
    ensures gone { AllLetGo T.goes now 16 on.old on.new }
    ensures later { NotFewer (T.faults on.old) (T.faults on.new) }
{
    'sessions: for session in 0..16 {
        let_all_go(session, now, on);
    }
}

/// Lets all fids of the session go before a Tversion.
fn clear_before<T: Turner>(session: u8, now: u32, request: &Request, on: &mut T)
    requires { session < 16 }
    ensures clears { Clears T.goes session now request.now on.old on.new }
    ensures later { NotFewer (T.faults on.old) (T.faults on.new) }
{
    if is_version(request) {
        let_all_go(session, now, on);
    }
}

/// The reply to a request.
pub fn ask<T: Turner>(session: u8, now: u32, request: Request, on: &mut T) -> Reply
    requires which { session < 16 }
    requires request { RequestFits request }
    ensures asks { Asks T.goes session now request result on.old on.new }
    ensures fits { ReplyFits result }
    ensures later { NotFewer (T.faults on.old) (T.faults on.new) }
{
    clear_before(session, now, &request, on);
    on.answer(session, now, request)
}
