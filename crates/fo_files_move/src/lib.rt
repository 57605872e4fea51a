//! A record of a directory moves to another leaf that is owned, over any blocks of a device that tells nothing.
//!
//! Both leaves are read; the record is found, as it is, and has to fit; all is settled first, where the leaves or that of the entries aren't in
//! place; and the record is put at the end of the other leaf, with a settling in between (`move_between`).
//!
//! Proved: it is refused by faults, damage and want of memory alone, and then both leaves have what they had. Where it is granted the first has
//! its records without the first of the name, and the other its records and then this one, and no slot waits to be cleared. What is pinned stays
//! else, but for slots that waited to be cleared (`Rewrites` of `fo_files_record`). No block and no pin is taken, and at most one wait. Not said:
//! what is settled in between, and what holds of images.
#![tactic(auto)]

mod between;

pub use between::move_between;

// Passed on, so that a crate above names this one alone.
pub use fo_files_record::read;
