//! Worlds of files: what every file answer of the whole file system means (specs/Step), and the trees that a world is kept in.
//!
//! A world has an active tree, the kept snapshots and the archives (fossil(4) of the Plan 9 manual). `FileOps` are the calls on it.
//! The types of this crate are those of all layers; `World` and the changes of trees are for whoever keeps a world as plain trees.
#![tactic(auto)]

mod alter;
mod error;
mod fields;
mod files;
mod laws;
mod limits;
mod place;
mod text;
mod trail;
mod tree;
mod world;

pub use alter::{Add, Alter, Fields, Rename, TakeOut, Write};
pub use error::FileError;
pub use files::FileOps;
pub use fo_base::Bytes as Name;
pub use fo_sparse::Plain;
pub use laws::{changes_stay_local, infos_are_within_limits, worlds_stay_within_limits};
pub use limits::{
    DMAPPEND, DMDIR, DMEXCL, DMTMP, MOST_ABOVE, MOST_BYTES, MOST_NAMES, MOST_NUMBERS,
};
pub use place::{Change, Info, Place, View};
pub use text::ShortText;
pub use trail::Trail;
pub use tree::{Body, Names, Node, Tree, follow, is_above};
pub use world::{Archive, Snap, World};
