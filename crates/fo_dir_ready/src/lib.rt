//! A leaf of a directory is made ready for a name.
//!
//! A leaf of records or of entries is owned: copied where it is older, or added where the source ends before it. What was prepared is
//! owned without refusal; `ready_records` and `ready_entries` prepare first, and add nothing where that is refused.
//!
//! Proved, over any blocks and any source: the leaf is pinned, current, of its kind, and not to be closed, and it is said whether it
//! is in place. Where the device tells, the directory has the same records as before, and each pair of entries is what it was: free,
//! or taken with the same entries. It is said which leaves stay at their addresses and what the owned one has, and that the source alone
//! was changed, and in whose place its top comes; of a leaf that is prepared first, that all before was a look.
#![tactic(auto)]

mod entries;
mod ready;
mod records;

pub use entries::own_entries;
pub use ready::{ReadyLeaf, ready_entries, ready_records};
pub use records::own_records;
