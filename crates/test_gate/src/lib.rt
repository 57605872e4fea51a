//! Tests of the gate: a counter that two threads share, epochs that are read while a turn lasts, and any state that may cross
//! threads.
#![tactic(auto)]

#[cfg(test)]
mod counting;
#[cfg(test)]
mod meanwhile;
#[cfg(test)]
mod shared;
