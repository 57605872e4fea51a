//! What a block cache keeps in memory: buffers, labels, the order of writing, the queue of removals, and what is known of each address.
//!
//! `Mind` is all of a cache but its device, which each call that may read takes as an argument. What calls on blocks see of it is one
//! record, `state_of` (specs/Parts.antt), in which the device tells nothing of crashes: so of images, places and moments nothing is said.
//!
//! Words: a block **owes** where a unit of room in the order of writing is kept for it; it is **linked** once it is in the tree of memory.
//!
//! Proved: `get` gives the bytes that are held, else those that are clean, else one of the versions of the device, of the format that is
//! asked for, and changes nothing that calls on blocks see; a pinned block is had again without fail; a block is damaged only where its
//! label is of another kind, it may be given out, it is of the high epoch and not live, or its bytes aren't good; a fault comes only where
//! the device's count rose. With no pin left `get` needs no room, and may want memory. `pin` brings and pins a block as `get` does and
//! copies nothing; with no pin left it does nothing. Only blocks that are live and of the high epoch are changed, and have a turn. `lend`
//! lends the bytes that are held, of the format that is asked for, and so what `get` would copy. `new_block` and `copy` give out the least
//! usable block, and `put_bytes` puts bytes beside the slots of a pinned one, each with the clauses of `Blocks`; neither wants memory. A
//! slot, a label and what waits are as memory has them. What calls see keeps the laws of `Blocks`. What is to be written next has its bytes
//! in memory, or is a block of labels; what a write or a sync does to each field is said by its answer alone, and only `keep_turn_of` may
//! want memory for it. A slot of a pinned block changes in exact steps (`Slotted`): its bytes, who is apart, who comes into the tree, what
//! is queued; no memory is wanted, since room is kept for whoever was made or may be. What calls see of it is said by `fo_put`. Another
//! super block is tried, in doubt, and then counts or is overruled. Memory has the bytes of the one that counts, and the next file number
//! is up to the limit of both, and below it while it is granted.
//!
//! Not proved here: what is said of crash images, places and moments.
#![tactic(auto)]

mod changes;
mod clearing;
mod gets;
mod laws;
mod mind;
mod news;
mod numbers;
mod opening;
mod pins;
mod puts;
mod rooms;
mod seals;
mod slots;
mod supers;
mod turns;
mod views;
mod waiting;

pub use mind::Mind;

// Passed on, so that a crate above names this one alone.
pub use fo_raising::cost;
