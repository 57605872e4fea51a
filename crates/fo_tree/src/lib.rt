//! A source of bytes in a tree of blocks, as one type that keeps the trait of sources over any blocks.
//!
//! A `Source` is where its blocks hang (`Tree`), what stays of it, and what was fetched for it. Calls that only look are those of
//! `fo_tree_look`, a piece is put by `fo_tree_append` and `fo_tree_write`, a leaf is owned by `fo_tree_grown`, and what stands behind the end is
//! seen by `fo_tree_trim`.
//!
//! Proved: `Source` keeps every clause and every law of `Bytes`, over any blocks and any device. It is begun without bytes, opened from its
//! entry, and linked. Where the device tells, its blocks are those to which its entry leads through blocks of pointers (`owned_blocks`), and
//! one of data that was changed by calls of the trait may be linked (`may_link_changed`), and so may any of which a leaf was owned
//! (`may_link_owned`). No image shows more in a leaf of records once a piece was put or a leaf was owned, nor once a source that hung from
//! its entry is linked again with a leaf owned (`may_show_linked`).
#![tactic(auto)]

mod calls;
mod entry;
mod laws;
mod put;
mod source;

pub use laws::{may_link_changed, may_link_owned, may_show_linked, owned_blocks};
pub use source::Source;

// Passed on, so that a crate above names this one alone.
pub use fo_tree_link::open_read;
