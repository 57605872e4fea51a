//! Calls on blocks that only look, one after another.
//!
//! No code: lemmas over `Looks` and `SameLeaves` of `fo_ports`, for all that reads through several calls. What only looks joins with what
//! only looks; a source whose blocks were only looked at is undisturbed, so it stays (the law `stays` of `Bytes`); and a fault
//! that a later call had is one of the whole.
#![tactic(auto)]

// Passed on, so that a crate above names this one alone.
pub use fo_ports::{
    BLOCK, BlockError, Blocks, Kind, Pointer, Score, is_zero, read_pointer, score_at,
};
