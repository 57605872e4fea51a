//! A file is made in a directory of the active tree, over any blocks of a device that tells nothing.
//!
//! `create_file` looks first: refusals by what the tree has, and by limits, come there. Then a file number is granted, and room reserved. Next all
//! is settled, unless the look found that the name stands alone in every image (`fo_files_spot`). The way to the directory is planned and owned,
//! the directory's own record made ready, and the new file put into the directory; then its number is taken, and the own record put, which refuse
//! nothing.
//!
//! Proved: each refusal has its cause, and comes after those of the step before it; full comes only where fewer blocks are usable than the need,
//! with all settled. What is told of the new file is what the file step says of one with the next number. A file that is made has its record, with
//! its pair, in a leaf of the directory, and all was settled before that, but where its name was found to stand alone; the directory's own record
//! is the one that was found, with the time and the user, and the next version. A refusal leaves both, in their bytes, and the next number, though
//! records of directories may have moved to other leaves. At most the need of blocks is taken (`create_need` of `fo_world`). Not said: that the
//! name was free or stood alone, since the device doesn't tell, and what holds of images.
#![tactic(auto)]

mod along;
mod create;
mod make;
mod number;
mod told;

pub use create::create_file;
