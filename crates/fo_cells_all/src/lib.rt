//! The whole invariant of a block cache, in one record, and that each step keeps it.
//!
//! `HoldsAll` joins what the crates below say: of the blocks that stand somewhere, one place, ranks, labels, names, older blocks, epochs,
//! the tree of memory, waits (`fo_cells`); of kept trees and of the roots that super blocks name (`fo_cells_epochs`); of removals, in order
//! (`fo_cells_queue`, over `fo_cells_out`); of flags; of buffers, labels that are set, what may be dirty, and room (`fo_cells_held`).
//!
//! Proved: `write_kept` (a data block, block 1, or a block of labels) and `settle_kept` keep it over any device, whatever it answers; a call
//! in memory keeps it where the laws of the crates below keep their parts, and what it does beside is as `StepsBeside` says. Over a snapshot
//! its parts are kept one by one (`fo_cells_begin` for the removals), and make it again.
#![tactic(auto)]

mod device;
mod laws;

pub use device::{Divided, settle_kept, write_kept};
pub use laws::{memory_keeps_all, parts_make_all};
