//! Each image that a crash may leave is like one that it might have left before, over any blocks.
//!
//! Words: an image is like another (`IsLike`) where each leaf of records that it finds by a path from block 1 is found by the other at the
//! same spot with the same bytes, or is zeros; each leaf of entries likewise, with each slot in the same use, or has no slot in use; and each
//! leaf of entries that the other finds, it finds itself likewise. (Block 1 and the root block count as such leaves.)
//! New images show the same as old ones (`ShowsSame`) where each is like one of the old. Another slot leads to the same as memory's
//! (`LeadsSame`) where it is in the same use, and in each image with memory's slot what it would lead to is like what that one leads to.
//!
//! Proved: new images show the same as old ones where no image was added (`nothing_added`); a block was given out (`block_given`); bytes were
//! put into a block that is no leaf of records (`bytes_put`); a slot was put that leads where memory's led, to the same place, in the same use
//! (`slot_stays`), or to the same (`slot_linked`), or nowhere, where memory's held no entries (`slot_gone`); the super block was written with
//! memory's slots (`super_written`); a slot of a block of pointers was led to a copy of what it led to (`slot_copied`), or, where it held no
//! entries, to a bare block (`slot_new`). Such steps join (`same_joins`). Where all is settled, each image is like memory's (`all_settled`).
//! What shows the same shows no more (`shows_no_more`).
//!
//! Lemmas for other crates: proofs/Likes, of two images and of sets of images, and that what records name stays in use (`names_same`);
//! proofs/Linking, of slots that are put; proofs/Sames, how `LeadsSame` goes on; proofs/Leading, the same where a slot of a block of pointers
//! below is led to a block that came; below them proofs/Leads, of one sort of leaves and then of all three. A slot that is put needs ranks
//! that fall, before and after: then no path comes to it twice.
//!
//! Not said here: bytes put into a leaf of records, a slot that is put in another use, and a new root.
#![tactic(auto)]

mod laws;

pub use laws::{
    all_settled, block_given, bytes_put, nothing_added, same_joins, shows_no_more, slot_copied,
    slot_gone, slot_linked, slot_new, slot_stays, super_written,
};
