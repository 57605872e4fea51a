//! Names of directories in the images that a crash may leave.
//!
//! `StandOnce` of `fo_dir_put` speaks of blocks: of all leaves of records that all images together show in the active tree, each at its spot,
//! whether or not it is in place. Here it is said what follows of what each image itself lists in its directories.
//!
//! Words: a **trail** is the slot pairs on the way to a directory; a directory is **plain** (`IsPlainDir`) where what the format and the rules
//! ask of it beside names holds: its trail has at most 64 pairs, each within the depth of the entries that hold it; its records are data, their
//! size lies within their depth, and none of their leaves is archived.
//!
//! Proved, over any blocks that tell what they hold, where `StandOnce` holds of all images. In each image no two records that it lists in a
//! plain directory have one name, number or pair, and none of two plain directories have one number (`names_differ`): a leaf of the records
//! of a directory at most 64 pairs deep is at a spot of that kind (`IsOfRecords`), other leaves are at other spots, and those of one directory
//! have one trail and one tag. So an image that keeps the other rules of sound images (`IsSoundBeside`) keeps those on names, as the check asks
//! them (`names_are_kept`): names (S5 of docs/FORMATS.md), also in directories that no name leads to, pairs (S6), and numbers (S8).
//! Where every image is what memory has, `StandOnce` of memory alone is that of all images, and it follows from that of all images at any
//! time (`settled_once`). Two images with a record in each of two leaves show that there are such images (`two_leaves_stand_once`).
//!
//! Not said: that `StandOnce` is kept, which is for the calls that put records; what an image has besides names; trees below the root blocks of
//! snapshots.
#![tactic(auto)]

mod laws;

pub use laws::{names_are_kept, names_differ, settled_once, two_leaves_stand_once};
