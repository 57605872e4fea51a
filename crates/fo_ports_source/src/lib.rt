//! A plain source of bytes over any blocks: a list of the addresses of its leaves. For tests, and for clients that stand on sources.
//!
//! The *leaves* of a source are its blocks of 8192 bytes; a leaf that is missing reads as zeros. A leaf is *owned* once it is of the
//! current epoch: an older one is copied first, and a missing one is given out. It is *held* once it is pinned and its label was looked
//! at.
//!
//! Proved: all that the trait of sources promises, over any blocks. This source has no blocks of pointers and puts no slot, so what it
//! gives out stays apart, its entry has a nil top and the least depth, and no image leads to its leaves; where the device tells what it
//! holds, only a leaf that hangs in the tree, by a slot that somebody else put, may be of an older epoch. Not said: that there is memory
//! for its list.
#![tactic(auto)]

mod calls;
mod leaf;
mod own;
mod source;

pub use source::PlainSource;
