//! `reserve` of a block cache: what a request needs is reserved, and what it needs is made usable.
//!
//! All pins end first, and each block so unpinned is given up where it may be. Where so many blocks are usable, room is made, and that is
//! all. Else all is settled, each block that may be given up is, and blocks that left the tree are closed until enough are usable and some
//! more, or no removal is left; what is closed may be given out at once. Where too few are usable even then, the blocks of their labels are
//! settled, too, and only then the call answers `Full`. Beside that all is settled first where more than 4,096 blocks are to be written or
//! settled, so that memory holds no more of them. Where memory is wanting, all that may be given up is, all is settled and given up, and it
//! is tried once more: so no request is refused for what memory itself holds.
//!
//! Proved: where it answers Ok there is room, and nothing is pinned; whatever it answers, what isn't doomed stays (`Rests`), with what
//! every call keeps. Labels change, and removals leave the queue, by turns of closing alone, taken at rest over the queue as it was
//! (`ClosesAtRest`); where a slot waited, a settling may have queued more, and its leaf is settled then. It is refused where
//! the device failed, for want of memory, when
//! nothing is pinned and nothing is held that may be given up, and with `Full` only where too few blocks are usable, all is settled for
//! certain, no removal is queued and no slot waits. `unpin_all` leaves nothing pinned, `give_up_all` beside that no block that may be given
//! up, and `close_queued` no removal, or so many usable blocks.
//!
//! Not proved here: what is said of crash images, places and moments; which removals a settling queues; what the blocks hold that turns of
//! closing look at; how much is held between two settlings.
#![tactic(auto)]

mod closing;
mod needs;
mod pins;
mod rest;

pub use closing::close_queued;
pub use needs::reserve;
pub use pins::{give_up_all, unpin_all};

// Passed on, so that a crate above names this one alone.
pub use fo_closing::is_sure;
