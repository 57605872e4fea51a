//! Blocks that left the tree of memory are closed, one a turn, so that they may be given out again.
//!
//! A turn asks the queue of removals what it closes next, and gives it the content of the pointer block that it needs: what is held of it,
//! else clean, else what the device has. Nothing is held or pinned for that. Closing comes **at rest**: after a settling, with nothing
//! pinned. So what is closed has no turn and no unsettled write, and its bytes needn't be kept; and as a turn makes blocks of labels
//! dirty alone, the next one is at rest again.
//!
//! A block is closed only where its label says that it is one of the removal: live, of the kind and the tag that it has to have there, and
//! not of a later epoch; where it isn't the root, and was linked. Any other is passed over alone. A pointer block whose bytes are damaged
//! is closed without what hangs from it. A removal whose `after` isn't settled at rest is given up. So each turn lowers the work that is
//! left, whatever blocks hold, and no removal keeps room from those behind it.
//!
//! Proved: each turn does what it answers (`Turned`): which block, at which epoch, after what, and what of each field changes; turns are
//! taken until so many blocks are usable or no removal is left, and this ends. A turn fails only where the device fails, which changes
//! nothing, or memory is wanting for the turn of a block of labels. Where all is quiet a turn wants no memory (`close_quiet`): it takes the
//! one turn that an order has beside its room.
//!
//! Not proved here: what is said of crash images, places and moments.
#![tactic(auto)]

mod belongs;
mod close;
mod looks;
mod sure;
mod turn;
mod until;

pub use sure::is_sure;
pub use turn::{Closing, close_next, close_quiet};
pub use until::close_until;
