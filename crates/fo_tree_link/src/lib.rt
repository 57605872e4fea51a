//! A source's entry is put into its slot, over any blocks.
//!
//! A source that was changed may hang from a new top, which is put nowhere yet. Its entry leads there once it is *linked*: put into the
//! slot of the leaf of entries, or root block, in which its old entry stands.
//!
//! Proved, over any blocks and any device: memory has the entry there, and is else the same; an image has it, or is one of before. The
//! source stands over the blocks, and nothing is to come in the place of its top. Where the device tells, what hangs from the new top hangs
//! from block 1 now, and so does all that did, but what hung from the old entry alone, which is to be closed; and each block that hangs from
//! block 1 stays in place for other sources. Where the source comes in the place of what its entry had (`ComesFor`), or was emptied, the put
//! is one that `Blocks` asks for; a source that was linked and then changed comes so (`may_link`), and is linked again (`HangsInTree`). So
//! may one be that was linked and lost all its bytes (`may_empty`), or levels (`may_lower`).
//!
//! Where the entry leads, in each image, to no more of leaves of records than memory's old one does there (`LeadsAlike`), or to zeros, the
//! put shows no more of them.
#![tactic(auto)]

mod laws;
mod put;

pub use laws::{keeps_entries, keeps_others, may_empty, may_link, may_lower, owned_entries};
pub use put::link;

// Passed on, so that a crate above names this one alone.
pub use fo_tree_open::{open, open_read};
