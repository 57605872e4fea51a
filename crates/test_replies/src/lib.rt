//! Messages of 9P2000 and the bytes that reply to them, by rows that were written out by hand from section 5 of the Plan 9 manual, and what
//! answers two sessions (`Server`).
//!
//! `hold` asks such a server what a row says, and compares the reply byte by byte. `left` has rows that are found after the conversations of
//! `test_conversations`, by new sessions: of the same server, or of one whose files were opened again. Nothing in it tells the two apart.
#![tactic(auto)]

pub mod left;
mod messages;

pub use messages::{Row, Server, Wrong, exchange, hold};
