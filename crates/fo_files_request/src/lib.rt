//! A request that changes a file of the active tree, over any blocks of a device that tells nothing.
//!
//! `write_file` writes a piece at an offset of the file at a place. It looks first: refusals by what the tree has, and by limits, come there,
//! and the leaf for a record that may have to move is looked for. Then it reserves what it needs. The way to the file is planned and owned, the
//! leaf with its record made ready, and read; then the data is put, and last the record with the new time, user and version. Nothing is refused
//! once data was put.
//!
//! Proved: each refusal has its cause; full comes only where fewer blocks are usable than the need, with all settled. A write that is granted has
//! put the piece into the file's data and the record in the place of the one that was found, in the leaf where that stood or to which it moved
//! as it was; the file has the length that it had, or that of the piece's end. One that is refused puts no data, and leaves the record and the
//! length. At most the need of blocks is taken (`write_need` of `fo_world`). Not said: what bytes the file has, since the device doesn't tell;
//! that a file that is told to be gone is none of the tree's; and what holds of images.
#![tactic(auto)]

mod found;
mod need;
mod write;

pub use write::write_file;
