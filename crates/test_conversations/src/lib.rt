//! Conversations with sessions of 9P2000, by bytes that were written out by hand from section 5 of the Plan 9 manual: what is asked, what
//! is replied, and what is found afterwards. They are held with whatever answers two sessions (`Server` of `test_replies`), over files in
//! memory as over a disk.
//!
//! The moment of every request is 0, and so is that at which the files were made, but for `ROOT`.
#![tactic(auto)]

mod calls;
pub mod conversations;
mod rows;
mod settled;
mod shared;

pub use conversations::{Conversation, Part, converse};
pub use settled::{MARKS, Mark, Settling, settles};
