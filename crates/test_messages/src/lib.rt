//! Tests of the crates nine_fields, nine_stat and nine_wire: each call that may want memory with ample memory, values that the
//! Plan 9 manual gives, and records and messages that were written out by hand from it.
#![tactic(auto)]

#[cfg(test)]
mod fields;
#[cfg(test)]
mod stat;
#[cfg(test)]
mod wire;
