//! Tests of worlds of files and of what stands beside them: sparse lists of bytes, plain files, users, console lines and dated names.
//!
//! What each crate's contracts say is proved there. These tests say what no contract does: values from the Plan 9 manual and from other
//! programs, each call once where memory is ample (`ample`), and texts as they are printed.
#![tactic(auto)]

#[cfg(test)]
mod console;
#[cfg(test)]
mod names;
#[cfg(test)]
mod plain;
#[cfg(test)]
mod sparse;
#[cfg(test)]
mod users;
#[cfg(test)]
mod world;
