//! Each record that an image shows has its pair of entries in use in that image, whether its leaves are in place or not.
//!
//! An image **shows** a record (`ShowsRecord`) where one of its own paths from block 1 comes to a leaf of records that has it, and the first
//! entry of the directory is in use in that image (`HasFirst`). It **has the pair** (`HasPairAt`) where its own paths come to the leaf of that
//! directory's entries, and both entries are there for the record. **Pairs stand** (`PairsStand`) where each image that a crash may leave has
//! the pair of each record that it shows, and memory has it, too, if it has the directory's first entry in use.
//!
//! Proved, over any blocks: no image shows a record with a pair that is free in memory (`unused_pairs`). Pairs go on to stand where images and
//! memory are like those of before (`stands_alike`, by `like_is_paired`); where no image is added and memory is the same, or all is settled,
//! or slots that waited are cleared (`none_added`, `settling_keeps`, `waiting_cleared`); where bytes of a leaf are put (`leaf_changed`,
//! `record_put`), or the entries of a free pair (`pair_put`); and where an entry is cleared, now or later (`entry_cleared`). Where all is
//! settled it is memory's records that have theirs (`settled_pairs`). There are images whose pairs stand (`a_pair_stands`).
//!
//! Not said: that the conditions of these laws hold, which is for the calls.
#![tactic(auto)]

mod laws;

pub use laws::{
    a_pair_stands, entry_cleared, leaf_changed, like_is_paired, none_added, pair_put, record_put,
    settled_pairs, settling_keeps, stands_alike, unused_pairs, waiting_cleared,
};
