//! The rule of a gate's table, and the names of its steps.
use crate::turned::Turned;
use crate::view::View;
use atomic_table::{Join, Play, Split, TableRule};
use std::snapshot::Snapshot;

/// What a gate starts from. The rule reads it as the table's key.
pub struct Start<S> {
    pub state: Snapshot<S>,
    pub seats: u32,
}

/// What lies in the table's slot.
#[derive(Drop)]
pub enum Slot<S, E, O> {
    /// The state, and the length of the history.
    In(S, u64),
    /// The state is out with a seat.
    Out,
    /// The state is out and has made this turn: its event, its outcome and the state after it. It has no bytes but its tag.
    Made(Snapshot<E>, Snapshot<O>, Snapshot<S>),
}

/// The rule: there is one legal history, and each part of it is with one seat.
pub struct OneHistory;

impl<S: Turned> TableRule<Slot<S, S::Event, S::Outcome>, View<S, S::Event, S::Outcome>, Start<S>>
    for OneHistory {
    ghost use Rattle.fo_gate.specs.Rule.{IsKept, first_view};

    ghost holds = { λ key. IsKept S.turns S.low S.high key };

    ghost first = { first_view };
}

/// Takes the next ticket.
pub struct Draw;

impl<S: Turned> Play<Slot<S, S::Event, S::Outcome>, View<S, S::Event, S::Outcome>> for Draw {
    ghost use Rattle.fo_gate.specs.Steps.{Draws};

    ghost then = { Draws };
}

/// Looks whether the ticket is served, and if so has the state.
pub struct Look;

impl<S: Turned> Play<Slot<S, S::Event, S::Outcome>, View<S, S::Event, S::Outcome>> for Look {
    ghost use Rattle.fo_gate.specs.Steps.{Looks};

    ghost then = { Looks S.turns S.low S.high };
}

/// Makes the turn that lies in the slot the last entry of the history.
pub struct Commit;

impl<S: Turned> Play<Slot<S, S::Event, S::Outcome>, View<S, S::Event, S::Outcome>> for Commit {
    ghost use Rattle.fo_gate.specs.Steps.{Commits};

    ghost then = { Commits S.low S.high };
}

/// Posts the epochs after the last entry.
pub struct Post;

impl<S: Turned> Play<Slot<S, S::Event, S::Outcome>, View<S, S::Event, S::Outcome>> for Post {
    ghost use Rattle.fo_gate.specs.Steps.{Posts};

    ghost then = { Posts };
}

/// Gives the state back and serves the next ticket.
pub struct PassOn;

impl<S: Turned> Play<Slot<S, S::Event, S::Outcome>, View<S, S::Event, S::Outcome>> for PassOn {
    ghost use Rattle.fo_gate.specs.Steps.{PassesOn};

    ghost then = { PassesOn };
}

/// Reads the posted epochs.
pub struct Read;

impl<S: Turned> Play<Slot<S, S::Event, S::Outcome>, View<S, S::Event, S::Outcome>> for Read {
    ghost use Rattle.fo_gate.specs.Steps.{Reads};

    ghost then = { Reads S.turns S.low S.high };
}

/// Learns that of two histories that were joined the shorter begins the longer.
pub struct Compare;

impl<S: Turned> Play<Slot<S, S::Event, S::Outcome>, View<S, S::Event, S::Outcome>> for Compare {
    ghost use Rattle.fo_gate.specs.Steps.{Compares};

    ghost then = { Compares };
}

/// Numbers go over from one seat to another.
pub struct Numbers;

impl<S, E, O> Split<View<S, E, O>> for Numbers {
    ghost use Rattle.fo_gate.specs.Steps.{without_greatest, greatest_alone};

    ghost left = { without_greatest };

    ghost right = { greatest_alone };
}

impl<S, E, O> Join<View<S, E, O>> for Numbers {
    ghost use Rattle.fo_gate.specs.Steps.{joined_view, spent_view};

    ghost both = { joined_view };

    ghost spent = { spent_view };
}
