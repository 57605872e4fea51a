//! The power is cut at each moment of a run of requests: the system over formatted disks in memory (`State` of fo_core).
//!
//! A table says what one session is asked, step by step, and what is found after each step; some steps settle all, by a Twstat that
//! touches nothing. Between two messages a flushing and an unlinking turn are taken, so that changes of several messages are unsettled
//! at once. A disk in memory keeps all versions that a crash may leave, and a call that is listed to fail lands all the same: so a run
//! that ends where that call is refused leaves what a crash at that moment may leave. Of each moment all images are made: each choice of
//! a version of each block. Each passes the check, with which the system opens, and each file reads as the last step left it that was
//! granted and settles all, or as a step sent since did: so a file that none of those touched reads unchanged.
#![tactic(auto)]

#[cfg(test)]
mod cores;
#[cfg(test)]
mod images;
#[cfg(test)]
mod moments;
#[cfg(test)]
mod table;
