//! A source of bytes in a tree of blocks is opened, from its entry, over any blocks.
//!
//! Proved, over any blocks and any device: from an entry that memory has in a pinned leaf of entries, or in the root block, comes the
//! source that it names, which stands over the blocks; or none comes, where the entry is not in use, has another tag, is longer than the
//! source may be, or has a top and no bytes. Nothing is looked at but the entry, so nothing else is refused. Not said: that blocks below
//! are whole, which `prepare` and `read` find out.
#![tactic(auto)]

mod source;

pub use source::{open, open_read};
