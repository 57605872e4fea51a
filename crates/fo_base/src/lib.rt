//! What all layers share: texts, want of memory, the sizes of blocks, and what is said of faults.
//!
//! Proved: a `Bytes` is the list of its bytes, and a copy has the same; `is_text` is true exactly of UTF-8 without a zero byte. Want of
//! memory is free.
#![tactic(auto)]

mod memory;
mod sizes;
mod text;

pub use memory::Memory;
pub use sizes::{BLOCK, LABELS, LINES, POINTERS};
pub use text::{Bytes, is_text};
