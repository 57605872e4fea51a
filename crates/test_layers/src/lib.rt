//! Each crate between the blocks of a cache and files works with ample memory, over files on disks of 64 blocks (`test_requests`).
//!
//! `requests`, `refusals`, `room` and `calls` test the calls on files by what is answered. Requests are rows of tables, which `asks` goes through.
//!
//! A body that always wants memory is proved, so a test has to say that it doesn't. Of each crate `fo_files_*` with a call that may want memory, and
//! of some below, a module has a test `ample`: it lists these calls, and asks requests of files that are granted only where each of them is; what is
//! read afterwards is what docs/FILES.md and docs/FORMATS.md give. `fo_files_dir` and `fo_files_world` have no such call.
//!
//! What is wanted follows from docs/FORMATS.md and docs/FILES.md: of 61 data blocks the root block is used, 60 are usable; a first file takes a
//! leaf of entries and one of records, and a leaf of data for each 8192 bytes; a write asks for 41 blocks at most.
#![tactic(auto)]

#[cfg(test)]
mod along;
#[cfg(test)]
mod asks;
#[cfg(test)]
mod at;
#[cfg(test)]
mod calls;
#[cfg(test)]
mod change;
#[cfg(test)]
mod create;
#[cfg(test)]
mod create_look;
#[cfg(test)]
mod edit;
#[cfg(test)]
mod files;
#[cfg(test)]
mod into;
#[cfg(test)]
mod leaf;
#[cfg(test)]
mod look;
#[cfg(test)]
mod moves;
#[cfg(test)]
mod new;
#[cfg(test)]
mod own;
#[cfg(test)]
mod plan;
#[cfg(test)]
mod put;
#[cfg(test)]
mod ready;
#[cfg(test)]
mod record;
#[cfg(test)]
mod refusals;
#[cfg(test)]
mod rename;
#[cfg(test)]
mod request;
#[cfg(test)]
mod requests;
#[cfg(test)]
mod room;
#[cfg(test)]
mod shorter;
#[cfg(test)]
mod spot;
#[cfg(test)]
mod take;
#[cfg(test)]
mod tree;
#[cfg(test)]
mod views;
#[cfg(test)]
mod way;
#[cfg(test)]
mod write;
