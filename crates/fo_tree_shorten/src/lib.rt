//! A source of data in a tree of blocks is shortened, and trimmed, over any blocks.
//!
//! To *shorten* a source is to put its entry with a smaller length, and the least depth for it: what stands behind the new end is no more
//! of it, and what isn't below the new top leaves. To *trim* it is to clear what stands behind its end in the blocks that are left, so that
//! it may grow again: these are made current and the source is linked (`make_ready`), and the slots are cleared (`cut`).
//!
//! Proved, over any blocks and any device: the source stands over the blocks after each call, its entry stands where it stood, and what one
//! call asks of the source the other one leaves. Where the device tells, a source that was shortened has the bytes up to its new end, an
//! image is one of before or has the new entry in it, and each block of the source that leaves the tree is to be closed. One that was
//! trimmed has the bytes that it had, nothing stands behind its end, each block that did is to be closed, and where all was settled before
//! it was cut, each image has the leaves that memory has. No image shows more in a leaf of records once a source was made ready,
//! cut or trimmed; nor once one was shortened that is none of records itself.
//!
//! Not said: of a source whose levels that go are under a score, and of one of entries. That an image in which the entry isn't what
//! memory has shows none of the cleared slots: an entry that was put with a shorter length is settled before the source is cut. And what
//! images show of a source of records that is shortened: one may lead from the new entry to a block to which its old top doesn't lead yet.
#![tactic(auto)]

mod behind;
mod laws;
mod length;

pub use behind::{cut, make_ready, trim};
pub use laws::stays_settled;
pub use length::shorten;
