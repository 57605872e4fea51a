//! Tests of the crates that a put of a slot stands on, by their public names: what is known of addresses (`fo_facts`), what a put costs and
//! whom it raises (`fo_raising`), the list of what is linked (`fo_linking`), and room for a request (`fo_rooms`).
//!
//! What is wanted follows from docs/CACHE.md. Nothing here is said of any caller.
#![tactic(auto)]

#[cfg(test)]
mod facts;
#[cfg(test)]
mod linking;
#[cfg(test)]
mod raising;
#[cfg(test)]
mod rooms;
