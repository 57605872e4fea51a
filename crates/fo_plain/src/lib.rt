//! Worlds of files, kept as plain trees: a plain program that answers every call as the file step says.
//!
//! `PlainFiles` stands for the whole file system where no device does. The dates and the dated names are computed in the plainest way.
//! The types are those of `fo_world`, and go by this crate's name too.
#![tactic(auto)]

mod changing;
mod checking;
mod dated;
mod looking;
mod made;
mod plain;
mod reached;
mod taken;

pub use fo_world::{
    Archive, Body, Change, FileError, FileOps, Info, Name, Names, Node, Place, Plain, ShortText,
    Snap, Trail, Tree, View, World,
};
pub use plain::PlainFiles;
