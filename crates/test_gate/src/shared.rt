//! Any state that may cross threads: its gate is shared, and its seats are sent.
ghost use Rattle.fo_gate.specs.Seats.{IsSeatOf};

use fo_gate::{Gate, Seat, Turned};
use std::thread;
use std::thread::Threads;

/// The epochs that a seat sees, and the seat.
fn epochs_of<S: Turned>(gate: &Gate<S>, mut seat: Seat<S>) -> ((u32, u32), Seat<S>)
    requires { IsSeatOf gate.now seat }
    ensures { IsSeatOf gate.now result.1 }
{
    let read = gate.epochs(&mut seat);
    (read, seat)
}

/// Two seats see the epochs, each in a thread of its own, and are one seat afterwards.
pub fn epochs_in_two<S: Turned + Send, R: Threads + Sync>(
    rt: &R,
    gate: &Gate<S>,
    seat: Seat<S>,
    other: Seat<S>,
) -> ((u32, u32), Seat<S>)
    requires seat { IsSeatOf gate.now seat }
    requires other { IsSeatOf gate.now other }
    ensures { IsSeatOf gate.now result.1 }
{
    let (mut seat, (read, other)) = thread::join(
        rt,
        move || -> Seat<S>
            requires { IsSeatOf gate.now seat }
            ensures { IsSeatOf gate.entry.now result }
        { epochs_of(gate, seat).1 },
        move || -> ((u32, u32), Seat<S>)
            requires { IsSeatOf gate.now other }
            ensures { IsSeatOf gate.entry.now result.1 }
        { epochs_of(gate, other) },
    );
    gate.join(&mut seat, other);
    (read, seat)
}
