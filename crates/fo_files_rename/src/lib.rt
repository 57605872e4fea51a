//! A change of what is said of a file of the active tree (stat(5) of the Plan 9 manual), a new name among it, over any blocks of a device that tells
//! nothing.
//!
//! `change_file` looks first (`found_at` of `fo_files_edit`): refusals by what the tree has, and by limits, come there. Where the file keeps its name,
//! the change is that of `fo_files_edit`. Where it gets a new one, the own record of its directory changes, too: that is looked at, and whether the new
//! name stands alone in the leaf that has the file's record. Room is reserved, and where another leaf may still have that name in an image, as memory
//! had it before, all is settled. Then the way is owned, the directory's record made ready, and the file gets its length, where one is given, and its
//! record; last of all comes the directory's, which refuses nothing.
//!
//! Proved: each refusal has its cause, and those of the look come in the order of the file step. Where it is granted, all that is given was done, step by
//! step, and the directory's own record is the one that was found, at the time and with the user given, and the next version. Where it is refused, each
//! record is as it was, in its bytes, though one may have moved to another leaf, and the file has its length. At most `give` of `fo_world` is
//! taken, what a change may that makes no file longer, and full comes only where, with all settled, fewer blocks than that are usable. Not said: that
//! it is granted only where so many are; that a name that is told to be taken is, or that the new one was free; what bytes the file has; what holds
//! of images.
#![tactic(auto)]

mod change;
mod file;
mod own;
mod rename;

pub use change::change_file;
