//! What a cache keeps beside what it knows of each block: which blocks have a buffer, which labels are set, which blocks may be dirty, and
//! how much room is left.
//!
//! `HasBuffers`: a block without a buffer has no flag, is not newborn, and nothing of it waits; so it has one version, which is what memory
//! has, and clean bytes are those. `LabelsAreTimed`: a label is set, known by label and not by block of labels, where it changed before the
//! write that was settled last. `OnlyLiveDirty`: a data block is dirty only while it is live and current, or was closed in the epoch in
//! which it was given out after a failed write; so no other data block gets a new version. `HasRoom`: room is left for the blocks, pins,
//! removals, waits and waiting slots that were promised.
//!
//! Proved: each is kept by a write and a sync over any device, whatever it answers (`write_held`, `settle_held`), and by calls in memory.
//! Not here: a closed block whose bytes are forgotten before it is given out again, since that changes images where nothing leads.
#![tactic(auto)]

mod device;
mod laws;

pub use device::{settle_held, write_held};
pub use laws::{buffers_are_kept, labels_are_timed, only_live_is_dirty, room_is_kept};
