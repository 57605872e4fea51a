//! Tests of the crates below the block cache, by their public names: buffers (`fo_buffers`) and what is brought into them (`fo_bring`), the order
//! of writing (`fo_order`), and a block of the label table (`fo_labels`).
//!
//! What is wanted follows from docs/CACHE.md. Nothing here is said of any caller.
#![tactic(auto)]

#[cfg(test)]
mod bringing;
#[cfg(test)]
mod buffers;
#[cfg(test)]
mod labels;
#[cfg(test)]
mod order;
