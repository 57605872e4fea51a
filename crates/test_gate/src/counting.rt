//! A counter that two threads share.
ghost use Rattle.std.specs.Prelude.{◌≡◌, ◌+◌, ◌%◌, ◌^◌};
ghost use Rattle.fo_gate.specs.Seats.{IsSeatOf};

use crate::shared::epochs_in_two;
use fo_gate::{Front, Gate, Seat, Turned};
use std::alloc::{AllocError, Global};
use std::sync::Wait;
use std::test::Fail;
use std::thread;
use std::thread::Threads;

/// Counts up. A turn answers the count before it.
#[derive(Drop)]
struct Counter {
    count: u64,
}

impl Turned for Counter {
    type Event = u64;

    type Outcome = u64;

    ghost turns = { λ a e o b. (o ≡ a.count) × (b.count ≡ (a.count + e) % 2 ^ 64) };

    ghost low = { λ a. a.count % 2 ^ 32 };

    ghost high = { λ _. 7 };

    fn turn(&mut self, event: u64) -> u64 {
        let before = self.count;
        self.count = before.wrapping_add(event);
        before
    }

    fn epochs(&self) -> (u32, u32) {
        ((self.count % (1 << 32)) as u32, 7)
    }
}

/// Makes turns. Keeps each outcome, and the length of the history at the last of them.
fn count<R: Wait>(
    rt: &R,
    gate: &Gate<Counter>,
    mut seat: Seat<Counter>,
    mut outcomes: Vec<u64>,
    turns: usize,
) -> (Seat<Counter>, Vec<u64>, u64)
    requires { IsSeatOf gate.now seat }
    ensures { IsSeatOf gate.now result.0 }
{
    let mut length = 0;
    for _ in 0..turns {
        let Ok((outcome, Front(front))) = gate.turn(rt, &mut seat, 1) else {
            break;
        };
        length = front;
        if outcomes.push(outcome).is_err() {
            break;
        }
    }
    (seat, outcomes, length)
}

/// Whether the outcomes are the numbers below `most`, each once.
fn is_each_once(mut outcomes: Vec<u64>, more: Vec<u64>, most: u64) -> Result<bool, AllocError> {
    outcomes.extend_from_slice(more.as_slice())?;
    outcomes.sort()?;
    Ok(outcomes.iter().copied().eq(0..most))
}

/// What two threads of a thousand turns each leave.
#[derive(Debug, PartialEq, Eq, Clone, Copy)]
struct Counted {
    alone_before: bool,
    alone_after: bool,
    length: u64,
    each_once: bool,
    low: u32,
    high: u32,
    count: u64,
}

fn count_in_two<R: Threads + Wait + Sync>(rt: &R, alloc: Global) -> Option<Counted> {
    let (gate, mut seat) = Gate::new(alloc, Counter { count: 0 }, 2).ok()?;
    let other = gate.split(&mut seat).ok()?;
    let alone_before = gate.alone(&seat);
    let shared = &gate;
    let outcomes = Vec::new(alloc);
    let outcomes_of_other = Vec::new(alloc);
    let ((mut seat, outcomes, length), (other, more, length_of_other)) = thread::join(
        rt,
        move || -> (Seat<Counter>, Vec<u64>, u64)
            requires { IsSeatOf shared.now seat }
            ensures { IsSeatOf shared.entry.now result.0 }
        { count(rt, shared, seat, outcomes, 1000) },
        move || -> (Seat<Counter>, Vec<u64>, u64)
            requires { IsSeatOf shared.now other }
            ensures { IsSeatOf shared.entry.now result.0 }
        { count(rt, shared, other, outcomes_of_other, 1000) },
    );
    gate.join(&mut seat, other);
    let alone_after = gate.alone(&seat);
    let (low, high) = gate.epochs(&mut seat);
    if !alone_after {
        return None;
    }
    let Counter { count } = gate.close(seat);
    Some(Counted {
        alone_before,
        alone_after,
        length: length.max(length_of_other),
        each_once: is_each_once(outcomes, more, 2000).ok()?,
        low,
        high,
        count,
    })
}

#[test]
fn two_threads_make_one_history(rt: HostRuntime) -> Result<(), Fail> {
    let counted = count_in_two(&rt, rt.alloc());
    let wanted = Counted {
        alone_before: false,
        alone_after: true,
        length: 2000,
        each_once: true,
        low: 2000,
        high: 7,
        count: 2000,
    };
    assert!(rt; counted == Some(wanted));
    Ok(())
}

/// The count of a counter that went through a gate, whether or not there was memory for the gate.
fn count_behind(alloc: Global, count: u64) -> u64 {
    match Gate::new(alloc, Counter { count }, 1) {
        Ok((gate, seat)) => {
            if gate.alone(&seat) {
                let Counter { count } = gate.close(seat);
                count
            } else {
                0
            }
        }
        Err(Counter { count }) => count,
    }
}

#[test]
fn state_comes_back(rt: HostRuntime) -> Result<(), Fail> {
    assert!(rt; count_behind(rt.alloc(), 41) == 41);
    Ok(())
}

/// Whether memory for a gate and a second seat is found.
fn finds_memory(alloc: Global) -> bool {
    let Ok((gate, mut seat)) = Gate::new(alloc, Counter { count: 0 }, 2) else {
        return false;
    };
    gate.split(&mut seat).is_ok()
}

#[test]
fn ample(rt: HostRuntime) -> Result<(), Fail> {
    assert!(rt; finds_memory(rt.alloc()));
    Ok(())
}

/// Two seats of a counter that stands at 5 see its epochs, each in a thread of its own.
fn see_in_two<R: Threads + Sync>(rt: &R, alloc: Global) -> Option<((u32, u32), bool)> {
    let (gate, mut seat) = Gate::new(alloc, Counter { count: 5 }, 2).ok()?;
    let other = gate.split(&mut seat).ok()?;
    let (read, seat) = epochs_in_two(rt, &gate, seat, other);
    Some((read, gate.alone(&seat)))
}

#[test]
fn two_threads_see_the_epochs(rt: HostRuntime) -> Result<(), Fail> {
    assert!(rt; see_in_two(&rt, rt.alloc()) == Some(((5, 7), true)));
    Ok(())
}
