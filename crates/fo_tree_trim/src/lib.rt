//! What stands behind the end of a source in a tree of blocks, over any blocks.
//!
//! The *way* to the last leaf is made of blocks that were prepared. Nothing stands behind the end where no slot behind that way leads
//! anywhere.
//!
//! Proved, over any blocks and any device: the look says exactly whether anything does (`EndsClear`), and changes nothing. To clear it the
//! blocks above the last leaf are made current (`own_end`), the source is linked by whoever has its entry, and each slot behind the way is
//! cleared in them (`cut_behind`), for one unit of room each. Nothing stands behind the end then, the source stands over the blocks with the
//! bytes that it had, what was prepared stays so, and all else stays (`Cuts`). No image shows more in a leaf of records, neither where the
//! blocks are made current nor where the slots are cleared. Where the device tells, what hung from these slots through blocks of pointers is
//! to be closed, and no block is that didn't hang from them. That they may be cleared follows from where the source hangs (`may_cut`): of a
//! source of entries no slot of what hangs there may wait. A source that hangs from block 1 stands over the blocks with an end within it,
//! too, and the least depth for that end.
//!
//! Not said: that an image which hasn't the source's entry yet shows none of the cleared slots; an entry that was put with a shorter
//! length is settled before.
#![tactic(auto)]

mod clear;
mod cut;
mod here;
mod laws;
mod lower;
mod own;

pub use clear::is_clear_behind;
pub use cut::cut_behind;
pub use laws::{may_cut, stays_clear};
pub use lower::lowered;
pub use own::own_end;
