//! Super blocks of one epoch, and a low epoch that rises, keep all that holds of a block cache at every moment.
//!
//! Proved, over the invariant of `fo_cells_steps` (`HoldsMade`): a super block that leads where memory's leads, as with a new limit of file
//! numbers, adds the images with it when it is tried, and is the doubt; once it alone is on the device it counts; a doubt is overruled by
//! memory's super block, written anew and settled; the low epoch rises, and fewer roots are kept. Not here: a super block that names a new
//! root, while it is in doubt.
#![tactic(auto)]

mod laws;

pub use laws::supers_keep_all;
