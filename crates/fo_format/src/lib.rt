//! The making of an empty file system and of an empty arena (flfmt, fossil(4)).
//!
//! `format` writes and settles the head of the arena, and then the root block, the label table, the super block and the header of
//! the main device, with one sync at the end.
//!
//! Proved over quiet devices that tell what they hold: they are quiet again and hold the fresh image and an empty arena, and blocks
//! that the format doesn't need are as they were; each refusal says what was written by then. Over any devices: `Size` comes
//! exactly where a number of blocks that was found is out of range; a fault comes only where that device's count rose; where
//! nothing was written nothing changed.
//!
//! Not promised: what a format that was cut off leaves, or one whose write failed.
#![tactic(auto)]

mod calls;
mod error;
mod formatter;
mod labels;

pub use error::FormatError;
pub use formatter::format;
