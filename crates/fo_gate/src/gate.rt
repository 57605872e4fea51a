//! A gate, its seats and its calls.
ghost use Rattle.std.specs.Prelude.{◌≡◌, ◌+◌, ◌*◌, ◌<◌, [], length};
ghost use Rattle.fo_gate.specs.Steps.{IsIdle, IsApart, IsNote};

use crate::rule::{
    Commit, Compare, Draw, Look, Numbers, OneHistory, PassOn, Post, Read, Slot, Start,
};
use crate::turned::Turned;
use crate::view::View;
use atomic_table::{Refused, Table};
use std::alloc::{AllocError, Global};
use std::snapshot::Snapshot;
use std::sync::Wait;
use std::thread;

// The words of the table. The length of the history is word 0, which the table's split and join load.
const LENGTH: usize = 0;

const TICKET: usize = 1;

const SERVING: usize = 2;

const EPOCHS: usize = 3;

/// The most turns that a history has.
pub const MOST_TURNS: u64 = 1 << 62;

/// How many values an epoch has.
const EPOCH_VALUES: u64 = 1 << 32;

/// The length of the history, this call included.
#[derive(Clone, Copy, Debug, PartialEq, Eq)]
pub struct Front(pub u64);

/// A state that is shared, one turn at a time.
#[derive(Drop)]
pub struct Gate<S: Turned> {
    table: Table<
        Slot<S, S::Event, S::Outcome>,
        View<S, S::Event, S::Outcome>,
        Start<S>,
        OneHistory,
        Global,
    >,
    seats: u32,
    ghost sized: { (table.shared.table_id.words ≡ 4) × (table.shared.table_id.slots ≡ 1) },
    ghost counted: { (seats ≡ table.shared.key.seats) × (seats < 4294967296) },
}

/// A caller's right to use a gate. It holds at least one number, and makes its calls under the least.
#[derive(Drop)]
pub struct Seat<S: Turned> {
    inner: atomic_table::Seat<Slot<S, S::Event, S::Outcome>, View<S, S::Event, S::Outcome>>,
    // How many numbers it holds.
    numbers: u32,
    ghost idle: { (inner.me.1 ≡ []) × IsIdle inner.me.0 },
    ghost counted: { (numbers ≡ length inner.me.0.numbers) × (0 < numbers) },
    ghost apart: { IsApart inner.me.0 },
}

impl<S: Turned> Gate<S> {
    ghost use Rattle.std.specs.Prelude.{◌≡◌, ℕ, ◌<◌, [], ◌↔◌, IsTrue, length, IfOk, IfErr};
    ghost use Rattle.fo_gate.specs.Steps.{IsIdle, HasEntered, without_greatest, greatest_alone};
    ghost use Rattle.fo_gate.specs.Calls.{IsFirst, IsCall, IsFull, IsRead, IsJoined, HoldsAll, IsEnd};
    ghost use Rattle.fo_gate.specs.Seats.{opening_of, seats_of, view, IsSeatOf};

    /// Puts a state behind a gate with this many numbers (at least 1), all of which the seat holds. Where there is no memory the state comes back.
    pub fn new(alloc: Global, state: S, seats: u32) -> Result<(Gate<S>, Seat<S>), S>
        requires { 0 < seats }
        ensures seat { IfOk result (λ r. IsSeatOf r.0 r.1) }
        ensures gate { IfOk result (λ r. (opening_of r.0 ≡ state) × (seats_of r.0 ≡ seats)) }
        ensures first { IfOk result (λ r. IsFirst (view r.1)) }
        ensures err { IfErr result (λ s. s ≡ state) }
    {
        let Ok(mut slots) = Vec::with_capacity(alloc, 1) else {
            return Err(state);
        };
        let start = Start {
            state: Snapshot::of(&state),
            seats,
        };
        let (low, high) = state.epochs();
        let word = epochs_word(low, high);
        slots.push_reserved(Slot::In(state, 0));
        let made = Table::new(alloc, &[0, 0, 0, word], slots, &start);
        let Start { state: _, seats: _ } = start;
        match made {
            Ok((table, inner)) => {
                let gate = Gate { table, seats };
                let seat = Seat {
                    inner,
                    numbers: seats,
                };
                Ok((gate, seat))
            }
            Err(Refused { mut slots }) => {
                let last = slots.pop();
                slots.destroy_empty();
                let Some(slot) = last else { unreachable!() };
                let Slot::In(state, _) = slot else {
                    unreachable!()
                };
                Err(state)
            }
        }
    }

    // Draws a ticket, waits until it is served, and takes the state with the length of the history.
    fn enter<R: Wait>(
        &self,
        rt: &R,
        inner: &mut atomic_table::Seat<
            Slot<S, S::Event, S::Outcome>,
            View<S, S::Event, S::Outcome>,
        >,
    ) -> (S, u64)
        requires seat { inner.old.table_id ≡ self.now.table.shared.table_id }
        requires idle { (inner.old.me.1 ≡ []) × IsIdle inner.old.me.0 × (0 < length inner.old.me.0.numbers) }
        ensures seat { inner.new.table_id ≡ inner.old.table_id }
        ensures holds { HasEntered S.turns S.low S.high inner.old.me.0 result.0 result.1 inner.new.me }
    {
        let shared = &self.table.shared;
        let ticket = shared.fetch_add::<Draw>(inner, TICKET, 1);
        for _ in rt.forever() {
            if shared.load::<Look>(inner, SERVING) == ticket {
                let taken = shared.exchange(inner, 0, Slot::Out);
                let Slot::In(state, made) = taken else {
                    unreachable!()
                };
                return (state, made);
            }
            thread::yield_now();
        }
        unreachable!()
    }

    /// Makes one turn of the state, once no other caller has it. The event comes back where the history has `MOST_TURNS` turns.
    pub fn turn<R: Wait>(
        &self,
        rt: &R,
        seat: &mut Seat<S>,
        event: S::Event,
    ) -> Result<(S::Outcome, Front), S::Event>
        requires { IsSeatOf self.now seat.old }
        ensures seat { IsSeatOf self.now seat.new }
        ensures call { IfOk result (λ r. IsCall S.turns S.low S.high (opening_of self.now) (view seat.old) event r.0 r.1.0 (view seat.new)) }
        ensures full { IfErr result (λ e. (e ≡ event) × IsFull (view seat.old) (view seat.new)) }
    {
        let shared = &self.table.shared;
        let inner = &mut seat.inner;
        let (mut state, made) = self.enter(rt, inner);
        if made >= MOST_TURNS {
            let left = shared.exchange(inner, 0, Slot::In(state, made));
            let Slot::Out = left else { unreachable!() };
            shared.fetch_add::<PassOn>(inner, SERVING, 1);
            return Err(event);
        }
        let (outcome, note) = play(&mut state, event);
        let left = shared.exchange(inner, 0, note);
        let Slot::Out = left else { unreachable!() };
        shared.fetch_add::<Commit>(inner, LENGTH, 1);
        let (low, high) = state.epochs();
        shared.store::<Post>(inner, EPOCHS, epochs_word(low, high));
        let left = shared.exchange(inner, 0, Slot::In(state, made + 1));
        let Slot::Made(_, _, _) = left else {
            unreachable!()
        };
        shared.fetch_add::<PassOn>(inner, SERVING, 1);
        Ok((outcome, Front(made + 1)))
    }

    /// The low and the high epoch after a beginning of the history, which the seat has then seen. It is no shorter than what the seat has
    /// seen before. The call takes no memory, and waits for nobody.
    pub fn epochs(&self, seat: &mut Seat<S>) -> (u32, u32)
        requires { IsSeatOf self.now seat.old }
        ensures seat { IsSeatOf self.now seat.new }
        ensures read { IsRead S.low S.high (opening_of self.now) (view seat.old) result.0 result.1 (view seat.new) }
    {
        let word = self.table.shared.load::<Read>(&mut seat.inner, EPOCHS);
        ((word / EPOCH_VALUES) as u32, (word % EPOCH_VALUES) as u32)
    }

    /// How many numbers the seat holds.
    pub fn numbers(&self, seat: &Seat<S>) -> u32
        ensures { result ≡ length (view seat.now).numbers }
    {
        seat.numbers
    }

    /// A new seat, which takes over the greatest number of this one. A refusal would change nothing; today none is made.
    pub fn split(&self, seat: &mut Seat<S>) -> Result<Seat<S>, AllocError>
        requires seat { IsSeatOf self.now seat.old }
        requires two { 1 < length (view seat.old).numbers }
        ensures seat { IsSeatOf self.now seat.new }
        ensures other { IfOk result (IsSeatOf self.now) }
        ensures ok { IfOk result (λ r. (view seat.new ≡ without_greatest (view seat.old)) × (view r ≡ greatest_alone (view seat.old))) }
        ensures err { IfErr result (λ _. view seat.new ≡ view seat.old) }
    {
        let inner = self.table.shared.split_seat::<Numbers>(&mut seat.inner);
        seat.numbers -= 1;
        Ok(Seat { inner, numbers: 1 })
    }

    /// Hands the numbers and the calls of the other seat over to this one.
    pub fn join(&self, seat: &mut Seat<S>, other: Seat<S>)
        requires seat { IsSeatOf self.now seat.old }
        requires other { IsSeatOf self.now other }
        ensures seat { IsSeatOf self.now seat.new }
        ensures joined { IsJoined (view seat.old) (view other) (view seat.new) }
    {
        let Seat { inner, numbers } = other;
        let shared = &self.table.shared;
        shared.join_seat::<Numbers>(&mut seat.inner, inner);
        shared.load::<Compare>(&mut seat.inner, LENGTH);
        seat.numbers += numbers;
    }

    /// Whether the seat holds all numbers.
    pub fn alone(&self, seat: &Seat<S>) -> bool
        requires { IsSeatOf self.now seat.now }
        ensures { IsTrue result ↔ HoldsAll (view seat.now) }
    {
        seat.numbers == self.seats
    }

    /// The state after the whole history, each turn of which was made by this seat or by one that was joined into it.
    pub fn close(self, seat: Seat<S>) -> S
        requires seat { IsSeatOf self seat }
        requires alone { HoldsAll (view seat) }
        ensures { IsEnd S.turns S.low S.high (opening_of self) (view seat) result }
    {
        let Gate { table, seats: _ } = self;
        let Seat { inner, numbers: _ } = seat;
        let mut closed = table.close_with(inner);
        let slot = closed.take(0);
        closed.free();
        let Slot::In(state, _) = slot else {
            unreachable!()
        };
        state
    }
}

// Makes one turn of a state, and the note of it from which the commit takes the new entry.
fn play<S: Turned>(state: &mut S, event: S::Event) -> (S::Outcome, Slot<S, S::Event, S::Outcome>)
    ensures turned { S.turns state.old event result.0 state.new }
    ensures note { IsNote event result.0 state.new result.1 }
{
    let asked = Snapshot::of(&event);
    let outcome = state.turn(event);
    let answered = Snapshot::of(&outcome);
    (outcome, Slot::Made(asked, answered, Snapshot::of(&*state)))
}

// The epochs in one word, the low one in its upper half.
fn epochs_word(low: u32, high: u32) -> u64
    ensures word { result ≡ low * 4294967296 + high }
    ensures small { (low < 4294967296) × (high < 4294967296) }
{
    u64::from(low) * EPOCH_VALUES + u64::from(high)
}
