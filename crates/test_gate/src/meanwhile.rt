//! Epochs that are read while a turn lasts.
ghost use Rattle.std.specs.Prelude.{◌≡◌, ⊤};
ghost use Rattle.fo_gate.specs.Seats.{IsSeatOf};

use fo_gate::{Gate, Seat, Turned};
use std::alloc::Global;
use std::sync::atomic::{AtomicU64, Ordering};
use std::sync::{Arc, Wait};
use std::test::Fail;
use std::thread;
use std::thread::Threads;

/// How often a thread looks at a stage before it gives up.
const LOOKS: u32 = 10_000_000;

// The stages of a turn, in a word that two threads share.
const WAITING: u64 = 0;

const BEGUN: u64 = 1;

const MAY_END: u64 = 2;

/// Whether a stage comes before many looks have passed.
fn comes(word: &AtomicU64, stage: u64) -> bool {
    for _ in 0..LOOKS {
        if word.load(Ordering::SeqCst) == stage {
            return true;
        }
        thread::yield_now();
    }
    false
}

/// A state whose turns last until they may end. Its high epoch is the number of its turns.
#[derive(Drop)]
struct Patient {
    stage: Arc<AtomicU64, Global>,
    turns: u32,
}

impl Turned for Patient {
    type Event = u64;

    /// 1 where the turn was told to end.
    type Outcome = u64;

    ghost turns = { λ _ _ _ _. ⊤ };

    ghost low = { λ _. 3 };

    ghost high = { λ a. a.turns };

    fn turn(&mut self, _event: u64) -> u64 {
        let _ = self
            .stage
            .compare_exchange(WAITING, BEGUN, Ordering::SeqCst, Ordering::SeqCst);
        self.turns = self.turns.wrapping_add(1);
        u64::from(comes(&self.stage, MAY_END))
    }

    fn epochs(&self) -> (u32, u32) {
        (3, self.turns)
    }
}

/// Makes a turn. Its outcome, and the seat.
fn outcome_of<R: Wait>(
    rt: &R,
    gate: &Gate<Patient>,
    mut seat: Seat<Patient>,
) -> (u64, Seat<Patient>)
    requires { IsSeatOf gate.now seat }
    ensures { IsSeatOf gate.now result.1 }
{
    match gate.turn(rt, &mut seat, 0) {
        Ok((outcome, _)) => (outcome, seat),
        Err(_) => (0, seat),
    }
}

/// Reads the epochs once the turn has begun, and then lets it end.
fn read_and_end(gate: &Gate<Patient>, mut seat: Seat<Patient>, stage: &AtomicU64) -> (u32, u32)
    requires { IsSeatOf gate.now seat }
{
    let _ = comes(stage, BEGUN);
    let read = gate.epochs(&mut seat);
    stage.store(MAY_END, Ordering::SeqCst);
    read
}

/// One thread makes a turn, and the other reads the epochs meanwhile.
fn read_meanwhile<R: Threads + Wait + Sync>(
    rt: &R,
    gate: &Gate<Patient>,
    seat: Seat<Patient>,
    other: Seat<Patient>,
    stage: &AtomicU64,
) -> ((u64, Seat<Patient>), (u32, u32))
    requires seat { IsSeatOf gate.now seat }
    requires other { IsSeatOf gate.now other }
    ensures { IsSeatOf gate.now result.0.1 }
{
    thread::join(
        rt,
        move || -> (u64, Seat<Patient>)
            requires { IsSeatOf gate.now seat }
            ensures { IsSeatOf gate.entry.now result.1 }
        { outcome_of(rt, gate, seat) },
        move || -> (u32, u32)
            requires { IsSeatOf gate.now other }
        { read_and_end(gate, other, stage) },
    )
}

/// A turn and what was read while it lasted; then the epochs after it.
#[derive(Debug, PartialEq, Eq, Clone, Copy)]
struct Read {
    told: u64,
    meanwhile: (u32, u32),
    after: (u32, u32),
}

fn read_in_two<R: Threads + Wait + Sync>(rt: &R, alloc: Global) -> Option<Read> {
    let stage = Arc::new(alloc, AtomicU64::new(WAITING)).ok()?;
    let shared = Arc::try_clone(&stage).ok()?;
    let state = Patient {
        stage: shared,
        turns: 0,
    };
    let (gate, mut seat) = Gate::new(alloc, state, 2).ok()?;
    let other = gate.split(&mut seat).ok()?;
    let ((told, mut seat), meanwhile) = read_meanwhile(rt, &gate, seat, other, &stage);
    let after = gate.epochs(&mut seat);
    Some(Read {
        told,
        meanwhile,
        after,
    })
}

#[test]
fn epochs_are_read_while_a_turn_lasts(rt: HostRuntime) -> Result<(), Fail> {
    let wanted = Read {
        told: 1,
        meanwhile: (3, 0),
        after: (3, 1),
    };
    assert!(rt; read_in_two(&rt, rt.alloc()) == Some(wanted));
    Ok(())
}
