//! Calls in memory keep all that holds of a block cache at every moment: bytes that are put, waits, and slots that are cleared.
//!
//! The invariant is that of `fo_cells_all`, with what was made (`HoldsMade`). It is said of a division that is read off the cache
//! (`division`): the tree is what block 1 reaches in memory, what removals have left is covered, and labels say what is older.
//!
//! Proved, one law a call: by which cell the images grow, and that the whole is kept. Bytes are put, a leaf waits for more, a slot begins to
//! wait, a wait ends; a slot of the tree is cleared at once or when its leaf is settled, and what hung from it is queued. Puts of slots stand
//! in `fo_cells_puts`, on the lemmas of this crate: a division that has the same blocks, paths where one slot changes, a slot that moves.
#![tactic(auto)]

mod laws;

pub use laws::{Makes, quiet_calls_keep_all, removals_keep_all};
