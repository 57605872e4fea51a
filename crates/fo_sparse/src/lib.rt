//! Lists of bytes that are kept sparsely: a long list of zero bytes with a few others takes little
//! memory.
#![tactic(auto)]

mod page;
mod pages;
mod plain;
mod whole;

pub use plain::Plain;
pub use whole::{resize_whole, write_whole};
