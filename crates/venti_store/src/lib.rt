//! The arena: blocks of at most 8192 bytes on a device, each found by its score, the SHA-1 hash of its bytes (FIPS 180-4), and its
//! kind ("Venti: a new approach to archival storage").
//!
//! A place has the bytes of one block, and a line of the index with its score, kind and length; the head says how many places are
//! used (docs/FORMATS.md). A block is held where a used place has it; the empty block is held for every kind. The index is in memory.
//! A block that is put waits there too, until 512 wait or a sync comes. Blocks and lines are written and settled before the head. The
//! blocks that were put last, held before or not, stay in memory (`RECENT`).
//!
//! Proved over any device: a put answers the hash of the bytes, and takes a place exactly where the block is not held; the cause of
//! each refusal, with a fault only where the device's count rose; a refused call changes neither what is held nor how many places
//! are used; a block that is held writes nothing, and one at hand costs no call of the device: one that waits, and each of the last
//! sixteen different ones that were put, in the order of their last puts; how many calls a put and a sync make at most; an opening
//! reads each block of the index at most once, and writes none.
//!
//! Proved over a device that tells what it holds: a get gives just what is held, and `Damaged` comes exactly where the bytes of the
//! place don't hash to its score; a collision names the block that is held; each image of each moment is an arena in which what the
//! last sync held is held; after a sync that answers Ok the device is quiet, and its image holds just what is held. Of a quiet one:
//! an opening holds just what it holds, and is refused as no arena exactly where it is none.
//!
//! Not proved: what is held on a device that tells nothing, as a file, and any speed.
#![tactic(auto)]

mod arena;
mod error;
mod index;
mod kind;
mod open;
mod pause;
mod put;
mod read;
mod recent;
mod shelf;
mod waiting;
mod writes;

pub use arena::Arena;
pub use error::{ArenaError, ArenaOpen, ArenaWhy};
pub use kind::{ROOT, TOP};
pub use pause::PausedArena;
pub use recent::RECENT;
