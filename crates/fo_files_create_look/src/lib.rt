//! What a new file needs is looked at, over any blocks of a device that tells nothing.
//!
//! `look_for_new` goes to the directory at a place, and tests whether a file of a name may be made there: refusals by what the tree has, and by
//! limits, come there, in the order of the file step. Then it looks for the pair and the leaf of records that the new file gets, whether its name
//! stands alone there in every image, and for the leaf to which the directory's own record goes where it outgrows its leaf.
//!
//! Proved: it only looks, and each refusal has its cause, as far as such a device lets it be said: those by limits exactly. What is granted is
//! within all limits but that of file numbers; the way leads to a directory, whose record says that the user changed it; and the new record has
//! all that is asked for, and can be spelled. Not said: that the name is free and stands alone, the pair free, and that the leaf has room, since
//! nothing is known of what such a device has.
#![tactic(auto)]

mod found;
mod limits;
mod names;
mod place;

pub use found::{Found, look_for_new};

// Passed on, so that a crate above names this one alone.
pub use fo_files_along as files_along;
pub use fo_files_along::{files_at, files_look};
pub use fo_files_spot as files_spot;
