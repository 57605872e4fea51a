//! An archived tree as files that are only read.
//!
//! `VacFiles` are the files of an archive that is open (`fo_vac_files`). Their world has that archive alone, and an empty active tree. They
//! serve the archive's view; each change is refused as `read only`, after what comes before that in the file step. They are honest where
//! the arena's device tells what it holds, all that the archive names is held, hashes to its score and is of its form, and the leaves of
//! its directories are leaves of records. What holds also where the archive is broken is said by the looks of `fo_vac_files`.
#![tactic(auto)]

mod files;
mod refuse;

pub use files::VacFiles;
