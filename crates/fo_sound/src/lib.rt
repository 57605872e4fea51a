//! What a sound image of the main device is, and the image that a device has once it was formatted.
//!
//! A sound image keeps the rules S1 to S8 of docs/FORMATS.md, a record for each. A fresh image is that of a device that was just
//! formatted. A quiet device that tells what it holds shows its one image.
//!
//! Proved: the super block, the label and the root block of a fresh image are the ones of its definition and have a spelling.
//! Definitions are most of this crate; `fo_check` and `fo_format` are proved against them.
#![tactic(auto)]

mod fresh;
mod label;

pub use fresh::{fresh_label, fresh_root, fresh_super};
pub use label::root_label;
