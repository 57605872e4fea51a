//! Tests of the crates of the two devices, by their public names: the disks (`fo_disk`), what stands on them (`fo_image`), the
//! labels of a tree of labels in memory (`fo_labels`), the image of a fresh device (`fo_sound`), and the check and the format
//! of images (`fo_check`, `fo_check_image`, `fo_format`).
//!
//! Bytes that are wanted were worked out by hand from docs/FORMATS.md. Nothing here is said of any caller.
#![tactic(auto)]

#[cfg(test)]
mod check;
#[cfg(test)]
mod disk;
#[cfg(test)]
mod format;
#[cfg(test)]
mod image;
#[cfg(test)]
mod labels;
#[cfg(test)]
mod sound;
