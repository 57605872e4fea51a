//! Which blocks a put or a removal loses, and which are to be closed after it.
//!
//! A block is lost that may not be given out, and that no tree, no made block, no removal and no kept tree has (`fo_cells_lost`). Proved, over
//! the division that is read off a cache (`fo_cells_steps`): a put loses none but what hangs from the entries of a source that leaves without
//! a copy, and a removal none but what hangs from its slot and is not queued. What was given out before the epoch at which it leaves is in
//! the kept tree of the epoch before, after the step too. A snapshot that begins loses none, and its tree shares what hung in it. What is
//! covered after a put is what the trait of blocks says, where all of the slot's own source that leaves is queued (`puts_cover`). Not here: a
//! closed block, one that is given out (`fo_cells_lost`).
#![tactic(auto)]

mod laws;

pub use laws::{puts_cover, puts_lose_none, snapshot_loses_none};
