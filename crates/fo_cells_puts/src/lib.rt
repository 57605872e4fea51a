//! A slot that is put keeps all that holds of a block cache at every moment.
//!
//! Proved, one law a shape of put, over the invariant of `fo_cells_steps` (`HoldsMade`): the images grow by exactly this slot, and the whole is
//! kept. The slot leads where it led; it is one of a made block, put or cleared; it led nowhere, and a new block comes with all that was made
//! below it; a made block comes in the place of what it led to, a copy or raised over it, with copies, raised and new blocks below; or it leads
//! to a block below levels that go. What is asked of made blocks is what the trait of blocks asks, in the words of a cache: no level goes in
//! a block that was made. Not here: that what a cache queues with a put is what leaves (`QueuesAll` asks it).
#![tactic(auto)]

mod laws;

pub use laws::{Among, puts_keep_all};
