//! The walk of an archiver: which block of a tree is stored next, over any blocks.
//!
//! A block is got as its kind and rank, and its form is made in place with the scores of the blocks below it (docs/ARCHIVER.md). Where
//! one of them isn't stored, the walk goes down to that one, whose rank is lower; so it ends, over any device.
//!
//! Proved, over any blocks and any device: a form has, slot by slot, the score under which what the block names was stored; a block
//! that is named instead isn't stored, is named by the block, and is a data block. The block that the walk ends at isn't stored, and
//! all that it names is; where the device tells, slots of memory lead to it from the root, at a place of its kind and rank. Nothing
//! changes, and each refusal has its cause: a block that names one of no lower rank is damaged, and where the device tells none does.
//! What a path from the root of a kept snapshot comes to stands at its place, in each state anew. The pieces of a batch are of such
//! blocks, and no two of one address and kind.
#![tactic(auto)]

mod data;
mod entries;
mod laws;
mod looks;
mod pieces;
mod pointers;
mod root;
mod siblings;
mod spot;
mod walk;

pub use data::look_data;
pub use entries::look_entries;
pub use laws::what_is_reached_stands;
pub use looks::look;
pub use pieces::next_pieces;
pub use pointers::look_pointers;
pub use root::look_root;
pub use spot::{Spot, arena_code};
pub use walk::next_block;
