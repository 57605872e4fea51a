//! One state for many callers: a lock made of single atomic steps, with one legal history of turns.
//!
//! A state that is `Turned` changes by turns: an event goes in and an outcome comes out. `Gate::new` puts such a
//! state behind a gate. A `Seat` is a caller's right to use the gate. It holds numbers; `split` and `join` hand
//! them over between seats. All turns stand in one list, the history: one entry for each turn, with the number of the
//! caller, the event, the outcome, and the low and the high epoch of the state after it. What a seat knows of it (its
//! `View`) has no bytes and stands in contracts alone: the beginning of the history that the seat has
//! seen, and the places in it of the seat's own calls.
//!
//! Proved: what a seat has seen is legal from the state that the gate was given; a turn ends what its seat has seen by the
//! entry of this call, and stands among the seat's calls once; an event comes back exactly where the history has
//! 2^62 turns; after `join` one of the two seen histories began the other; `alone` says whether a seat holds all
//! numbers; `close` gives the state after the whole history, each entry of which is a call of the closing seat;
//! `epochs` answers from a beginning of the history that is no shorter than what the seat has seen, without a
//! runtime, without memory and without a loop.
//!
//! Not proved: that a turn ever comes to its end, in which order callers are served, and that memory is found.
//! docs/GATE.md has the steps.
#![tactic(auto)]

mod gate;
mod rule;
mod turned;
mod view;

pub use gate::{Front, Gate, MOST_TURNS, Seat};
pub use turned::Turned;
pub use view::{Entry, View};
