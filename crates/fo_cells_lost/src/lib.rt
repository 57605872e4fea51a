//! Which blocks are lost: nobody has them, nothing closes them, and they may not be given out.
//!
//! `IsLost` says so of a block: its label is in use, it is in no tree of memory, was not made just now, waits in no removal, and no kept
//! tree has it. `AreShared`: what was given out before the epoch at which it leaves is in the kept tree of the epoch before.
//!
//! Proved: a step after which labels are as they were loses no block but those of its gap (what hangs from the entries of a source that
//! leaves, which no removal follows); a copy that comes, levels gained or lost have no gap; a block that is given out isn't lost, and one
//! that is closed may be given out, or the kept tree of the epoch before has it. Not here: the gap of larger puts; that a snapshot begins.
#![tactic(auto)]

mod laws;

pub use laws::{Gaps, closing_loses_none, steps_lose_none};
