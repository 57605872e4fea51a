//! What is known of the addresses of a cache, with two counts, so that making room asks no block.
//!
//! A `Fact` is known of each address. Counted are the blocks for which a unit of room in the order of writing is kept, and the blocks that
//! were made and are not in the tree of memory yet: each of these takes a turn, a removal and a place in the list of linked blocks.
//!
//! Proved: what each call does to the facts, place by place; both counts are those of the facts. Want of memory may be answered by `new`
//! alone.
//!
//! Not proved: which facts are true of memory; that is said of `Mind`, by whom all calls are made.
#![tactic(auto)]

mod fact;
mod known;
mod packed;

pub use fact::Fact;
pub use known::Facts;
