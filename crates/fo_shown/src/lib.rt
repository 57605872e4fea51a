//! What the images that a crash may leave show of leaves of records, over any blocks.
//!
//! Words: an image shows these bytes at a spot (`IsShownAt`) where one of its own paths from block 1 comes there to a block that has them. A
//! step shows no more (`ShowsNoMore`) where whatever a new image shows at the spot of a leaf of records, some old image showed there, or it
//! is zeros, which spell no record.
//!
//! Proved: each of these steps on blocks shows no more. No image is added (`nothing_added`: looks, settling, waits); a block is given out
//! (`block_given`); bytes are put into a block that is no leaf of records (`bytes_put`); a slot is put that leads nowhere (`slot_put`), or is
//! cleared, now or later (`slot_cleared`); a slot is put that leads where memory's led, to the same place (`slot_stays`: an entry with
//! another size); the super block is written with the slots that memory has (`super_written`: a file number). Steps that show no more join
//! (`shown_joins`). Where all is settled, memory itself shows whatever is shown (`all_settled`).
//!
//! Lemmas for other crates: proofs/Showing has one for each of these laws, over sets of images alone. proofs/Ways has the one lemma below
//! them: what a path finds in an image, it finds in another that leads on in the same way. proofs/Uses says of any slot that is put how a
//! block is found in a new image: by the same path in the old one, or by the new slot, from which on both images lead alike. proofs/Copying:
//! a slot of a block of pointers that is led to a copy, or to a new block, shows no more. proofs/Linking: nor does a slot that leads to no
//! more of leaves of records than memory's (`LeadsAlike`); proofs/Alikes: how that goes on as blocks are given out and led to.
//!
//! Not said here: what bytes that are put into a leaf of records show.
#![tactic(auto)]

mod laws;

pub use laws::{
    all_settled, block_given, bytes_put, nothing_added, shown_joins, slot_cleared, slot_put,
    slot_stays, super_written,
};
