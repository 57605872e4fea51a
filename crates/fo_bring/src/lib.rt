//! Blocks that a cache brings into memory from its device, tests, and copies out.
//!
//! Bytes are held only where they are good: they spell the slots of the block's kind, these lead to data blocks, and behind them there
//! are zeros. A block is copied out, or lent, only where it is of the format that its rank asks for.
//!
//! Proved: bytes are taken exactly where they are good; what is copied out is what is held, else what is clean, else one of the
//! versions of the device; other blocks stay as they are held; a refusal names the block whose bytes are not good, or comes where the
//! device failed. `glance` needs no room, and pins nothing. Want of memory may be answered by it alone.
#![tactic(auto)]

mod copies;
mod good;
mod reads;

pub use copies::{copy_held, lend_held};
pub use good::{is_data, is_good};
pub use reads::{bring, glance};
