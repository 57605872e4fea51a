//! What a message makes of a machine.
ghost use Rattle.std.specs.Prelude.{◌≡◌, ◌≤◌};
ghost use Rattle.nine_wire.specs.Message.{RequestFits, ReplyFits};
ghost use Rattle.nine_wire.specs.Version.{largest_message};
ghost use Rattle.fo_world.specs.Answers.{NotFewer};
ghost use Rattle.fo_talk.specs.Conversation.{LetsAllGo, agreed_size};
ghost use Rattle.fo_talk.specs.Answering.{Clears, Asks, is_version};

use crate::machine::Machine;
use fo_links::Clock;
use nine_wire::{Reply, Request};

/// Whether a request is a Tversion.
pub fn is_version(request: &Request) -> bool
    ensures { result ≡ is_version request.now }
{
    matches!(request, Request::Version { .. })
}

/// Lets fids go, one after another, each at a reading of the clock, until there is none.
pub fn let_all_go<C: Clock, M: Machine>(clock: &mut C, machine: &mut M)
    ensures gone { LetsAllGo M.goes (record { clock = C.coming clock.old; state = machine.old; faults = M.faults machine.old })
        (record { clock = C.coming clock.new; state = machine.new; faults = M.faults machine.new }) }
    ensures later { NotFewer (M.faults machine.old) (M.faults machine.new) }
{
    'fids: loop {
        let (more, _) = machine.drop_one(clock.now());
        if !more {
            return;
        }
    }
}

/// Lets all fids go before a Tversion.
fn clear_before<C: Clock, M: Machine>(request: &Request, clock: &mut C, machine: &mut M)
    ensures clears { Clears M.goes request.now (record { clock = C.coming clock.old; state = machine.old; faults = M.faults machine.old })
        (record { clock = C.coming clock.new; state = machine.new; faults = M.faults machine.new }) }
    ensures later { NotFewer (M.faults machine.old) (M.faults machine.new) }
{
    if is_version(request) {
        let_all_go(clock, machine);
    }
}

/// The machine's reply to a request.
pub fn ask<C: Clock, M: Machine>(
    tag: u16,
    request: Request,
    clock: &mut C,
    machine: &mut M,
) -> Reply
    requires { RequestFits request }
    ensures asks { Asks M.goes (record { clock = C.coming clock.old; state = machine.old; faults = M.faults machine.old })
        tag request result (record { clock = C.coming clock.new; state = machine.new; faults = M.faults machine.new }) }
    ensures fits { ReplyFits result }
    ensures small { agreed_size result ≤ largest_message }
    ensures later { NotFewer (M.faults machine.old) (M.faults machine.new) }
{
    clear_before(&request, clock, machine);
    machine.answer(clock.now(), tag, request)
}
