//! What waits in a cache: leaves for entries that records of theirs name, and slots to be cleared.
//!
//! A leaf waits for **pairs** of entries: entries 2k and 2k + 1 of a leaf of entries, where the first is in use. A slot of a leaf of entries
//! waits for another leaf, and is cleared when that is settled. Both are kept in lists; whoever makes room in them beforehand wants no memory.
//!
//! Proved: who waits for the pairs of a leaf is listed, just where the first entry of a pair is in use and waits for no clearing; when the
//! first entry of a pair is cleared the waits for that pair go, and no others; whether a slot waits, and whether anybody waits for a leaf. A slot that is
//! taken out of the list waits no more, and all others do still, for the leaves that they waited for.
//! Want of memory may be answered by `grow_lists` alone.
#![tactic(auto)]

mod clears;
mod listed;
mod pairs;
mod queries;
mod room;

pub use clears::{has_clearing, take_out};
pub use listed::{Clearing, Wait};
pub use pairs::{end_first, wait_pairs};
pub use queries::{is_awaited, is_listed};
pub use room::grow_lists;
