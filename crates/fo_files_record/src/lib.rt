//! Records of a directory change in leaves that are owned, over any blocks of a device that tells nothing.
//!
//! A leaf of records is read first: it is damaged where it is none. Then the first record of the name goes with the entries of its own pair
//! (`take_out`), which the caller names too, where all is settled first if one of the leaves isn't in place, or a directory goes: what hangs
//! below its entries may wait. The root directory's own record is put into its root block, which is read, and written anew (`put_own_record`);
//! `rewritten` makes the bytes alone.
//!
//! Proved: each is refused by faults, damage and want of memory alone, and then all was only looked at, but for a settling that fails. Where it
//! is granted the leaf has its records without the first of the name; the entries of the pair of the one that went, of its generation, are cleared, or wait for it, a directory's from a moment on when all was settled; the root block is the same but for the
//! own record. The first entry waits while the leaf is to be written, and else a removal is queued. What is pinned stays else, but for slots that
//! waited to be cleared (`Rewrites`). No block and no pin is taken, and a removal for each entry that is cleared. Not said: that a directory's
//! second entry waits too, and what holds of images.
#![tactic(auto)]

mod leaf;
mod own;
mod take;

pub use leaf::read;
pub use own::{put_own_record, rewritten};
pub use take::take_out;
