//! The archiver: copies the tree of a kept snapshot into the arena, children before parents (docs/ARCHIVER.md).
//!
//! `Archive` knows which blocks were stored, and under which scores. `batch` reads blocks all of whose children are stored, `store` puts
//! them into the arena once they are hashed, and `finish` puts the root of the archive and syncs. What is held takes no place, so an
//! archive that is begun again stores nothing twice.
//!
//! Proved over any devices: a batch has the forms of blocks that aren't stored and all of whose blocks are, each of a content that was
//! read at its address; it is empty exactly where all is stored, and nothing changes. Each piece is put and stored under its hash, or just
//! those in front of one that is refused, and that one is put, too, only where there was no memory to note it; the index names all that was
//! stored. The score of `finish` is the hash of the root of this epoch, time, top block and archive before; where it is refused nothing is
//! put, or the root is and could not be settled. Each refusal has its cause, with a fault only where its device's count rose.
//!
//! Proved over devices that tell what they hold: a piece is of what memory has, at a place to which slots lead from the root. Of each image
//! of which the pieces are the forms, the arena holds the forms of all that was stored; what was held stays, a block that is refused as
//! damaged or for another block of its score is so, and each image of each moment is an arena in which what was synced is held; once it is
//! finished the arena is quiet, and holds the root. Of each image whose forms were stored, and in which the tree of the root block is
//! readable, what is read by the score of `finish` alone is then this epoch, this time and that tree.
//!
//! Not proved: any speed.
#![tactic(auto)]

mod archive;
mod batches;
mod finish;
mod laws;
mod store;

pub use archive::Archive;
pub use laws::{copies_are_of_the_archive, forms_are_of_stored_blocks, pieces_are_of_memory};
