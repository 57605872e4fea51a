//! A cache that opens over a quiet device with a root that has nothing below it keeps the whole invariant: so it holds of some cache.
//!
//! `opened` is what a cache keeps where it opens over blocks, in a format (`Reading`). `HasRootAlone`: block 1 leads to a root, which leads
//! nowhere and whose label is live; whatever is closed may be given out.
//!
//! Proved: then each condition of an opening is met (`Opens`), and the whole holds (`HoldsWhole`); so it is over the device that was just
//! formatted (`IsFresh` of `fo_sound`), by any reading that reads what is spelled there; and there is a reading and a device of four blocks over
//! which it holds, with no condition left. It holds too of a cache that opens with the root of a kept snapshot as a second top, and of one that
//! gives out a block there, which is a third. Not here: devices with more in use; that the functions of `fo_slots` are such a reading.
#![tactic(auto)]

mod laws;

pub use laws::{alone_is_whole, formatted_is_whole, several_are_whole, some_is_whole};
