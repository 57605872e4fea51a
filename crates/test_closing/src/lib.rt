//! Tests of `fo_closing` over ten blocks, by its public names: which blocks a turn closes, in which order, and how many are usable then.
//!
//! What is wanted follows from docs/CACHE.md. Of ten blocks 0 to 2 are no data blocks; 4 leads to 5 and 6, and 9 is the root.
#![tactic(auto)]

#[cfg(test)]
mod closing;
#[cfg(test)]
mod minds;
