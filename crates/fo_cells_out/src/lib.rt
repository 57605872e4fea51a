//! What leaves the tree of memory, and when it may be closed, so that no path of any image leads to a block that is given out again.
//!
//! The blocks of the trees of the active epoch are divided (`Tree`): within the tree of memory, *made* and not linked yet, *covered* by a
//! removal. `Parents` says who may have a slot that leads to a block of the tree or to a made one: its one parent, or who held it before
//! its source grew. `AreBehind` says of each removal who may still lead to what it closes. `IsDivided` has all of it. `Origins` says what
//! made blocks are copies of, and in whose place they come.
//!
//! Proved: `IsDivided` is kept by writes, syncs, waits, other bytes, labels; by giving a block out; by a put into a made block, a put of a
//! copy, of a new block, of a grown or shortened source, and all of these nested; by a slot that is cleared, and by closing. The first
//! removal's blocks stand nowhere once the block after which it comes is settled. What a put asks of made blocks gives all that its
//! removals need. Not proved: that a cache's own tree meets the equations of a put (a walk of a finite tree); levels lost in a copy
//! that is linked. Removals of earlier epochs stand in `fo_cells_queue`.
#![tactic(auto)]

mod laws;

pub use laws::{
    Divided, closing_is_safe, moves_keep_division, puts_keep_division, steps_keep_division,
};
