//! That the check of a tree speaks of something: the image of a device, whatever its blocks hold.
//!
//! Proved, as the contract of a function that does nothing: each list of whole blocks with an active root has an image of which
//! `check_tree` of `fo_check_tree` says what it says. Its blocks of pointers and of entries are read as their labels say; an entry that is
//! not of its format, or of more than four levels, leads nowhere.
#![tactic(auto)]

mod laws;

pub use laws::images_are_there;
