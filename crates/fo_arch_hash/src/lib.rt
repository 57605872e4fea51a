//! What an archive stores of one block, and its score: the values that an archiver hands to those that hash.
//!
//! A piece is a block in its archived form without its tail, as the arena stores it (docs/FORMATS.md, "Archived forms"); a batch is
//! the pieces that an archiver took at one time, and says of which epoch they are and how many blocks were stored by then. A hashed
//! batch has the score of each piece. All are plain values that can be handed over.
//!
//! In an archived form the pointers and entries stand where they stood, and all else stays; so a form is made in place, slot by slot.
//!
//! Proved: a piece has the least bytes from which its block is made again, and a kind that an arena takes; a score that is put stands
//! in its slot, and an entry is spelled in its slot, and nothing else changes; an archived entry has all of its entry but the tag,
//! and the score that is given; a copy of a batch has the same pieces; the scores of a hashed batch are the SHA-1 hashes of its
//! pieces (FIPS 180-4), in their order, whoever made it. Want of memory is free.
//!
//! Not proved: that SHA-1 is the standard's (`test_arch_hash` compares scores from outside).
#![tactic(auto)]

mod batch;
mod form;
mod hash;
mod hashed;
mod types;

pub use batch::copy_of;
pub use form::{archived_entry, piece_of, put_entry, put_score};
pub use hash::{hash_here, score_of};
pub use hashed::Hashed;
pub use types::{Batch, MOST, Piece};
