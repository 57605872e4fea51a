//! A leaf of a directory is made ready to be changed, or added behind the last, over any blocks of a device that tells nothing.
//!
//! `ready_leaf` opens the source whose entry stands in a slot of a block, prepares the leaf, owns it, and links the source at once. A source
//! that grows has to have nothing behind its end. A crash may leave leaves there, whose length was never written: `trim_records` clears what
//! stands there, once all was settled, so that an image has either all or what is left, with the length that it had. Of entries it isn't
//! cleared, since what the entries of a leaf lead to would be lost with it: `take_behind` gives the source the leaf that stands there, by its
//! length alone, and settles.
//!
//! Proved: each refusal has its cause, and a leaf that isn't made ready was only looked at. Else it is pinned, whole and of the current epoch,
//! has what stood there, or nothing where it was added, and is named by the source's entry, in the use that it was in. After `trim_records` and
//! `take_behind` the source may grow or has the leaf, and where `take_behind` did more than look nothing is left to be written but what is
//! newborn. All else stays: of blocks that were there only the slot with the entry, and current blocks above the source's leaves, are put into,
//! and after a settling slots that waited may be cleared (`Alters`). Not said: what holds of images, and what the leaf that is taken in has.
#![tactic(auto)]

mod open;
mod own;
mod ready;
mod take;
mod trim;

pub use open::{LeafOf, may_grow, source_for};
pub use own::own_grown;
pub use ready::ready_leaf;
pub use take::take_behind;
pub use trim::trim_records;
