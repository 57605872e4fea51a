//! What a crash may leave of two devices: the trees of an image, sound images, the world that an image shows, good images.
//!
//! An image reads a device's blocks along paths of slots. A sound image keeps the rules S1 to S9 of docs/FORMATS.md, with snapshots
//! and without archives. Its world is the active tree and the snapshots along the chain of roots. An image is good for a world where
//! it is sound and shows everything of it but the files that are stale: those touched since the last acknowledged sync.
//!
//! Proved: the fresh image is sound, and its world is the empty one; where no file and no snapshot is there, soundness is that of
//! `fo_sound`; worlds of images are within the limits; a leaf is read as the records that it spells; devices that were opened are good
//! for their world; goodness lasts where nothing changes, with more stale files, and over steps one after another; where nothing is
//! stale each file is in both; where one path leads to each block, no block is at two places; names lead 64 directories down at most.
//!
//! Not said: archives. That two trees with the same files are equal is not proved.
#![tactic(auto)]
