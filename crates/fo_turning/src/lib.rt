//! Single turns that a core takes between requests: one step of a settling, and one block that is closed.
//!
//! A flushing turn writes block 1 where it is in doubt, else does what the order of writing says: a block is written, or what was written
//! is settled, and given up where it may be, so that memory comes back. Where that is nothing, a slot is cleared that waits for a settled
//! leaf. An unlinking turn closes one block that left the tree, where nothing is to be flushed; it unpins what a request left pinned.
//!
//! Proved: what a turn answers was done, and nothing else (`Does`, `Unlinks`); a flushing turn is idle exactly where nothing has a turn,
//! nothing is in doubt and no slot waits, and then nothing changes; after a sync no block may be given up that was written before it; an
//! unlinking turn finds nothing exactly where no removal is queued, waits exactly where something is to be flushed, and else leaves all at
//! rest, as `close_turn` asks. Over any device, what isn't doomed stays (`Rests`). A turn fails only where the device failed, or memory is
//! wanting; then nothing counts as written, settled or closed.
//!
//! Not proved here: what is said of crash images, places and moments; and how long a turn takes.
#![tactic(auto)]

mod close;
mod flush;
mod pins;
mod release;
mod unlink;
mod views;

pub use close::close_turn;
pub use flush::{Flushed, flush_turn};
pub use unlink::{Unlinked, unlink_turn};
pub use views::{super_block, usable};
