//! The lines of a script that drives a file server turn by turn, and the lines that answer it.
//!
//! | line | answer |
//! |---|---|
//! | `t SECONDS` | none: the moment of what follows, in seconds since 1970-01-01 UTC |
//! | `s N HEX` | `s N HEX`: a message of session N, and the reply |
//! | `h N` | `h N`: all fids of session N go |
//! | `c LINE` | each reply line of the console after `c ` |
//! | `f` | `f wrote`, `f synced`, `f idle`, `f fault CODE` |
//! | `u` | `u closed`, `u waits`, `u empty`, `u fault CODE` |
//! | `F` | `F idle`, `F fault CODE`: flush and unlink turns until nothing is left |
//! | `a` | `a more`, `a done SCORE`, `a idle`, `a refused CODE` |
//! | `A` | `A done SCORE`, `A idle`, `A refused CODE`: archive turns until one doesn't answer more |
//!
//! Proved: a line is read exactly where its bytes are the spelling of one, and then as that one. Numbers are decimal without leading
//! zeros, hexadecimal is of lower case and of whole bytes. Whether the bytes of a message are one is not asked here.
#![tactic(auto)]

mod line;
mod read;
mod words;
mod write;

pub use line::Line;
pub use read::line_of;
pub use write::{
    ArchiveEnd, Archived, Flushed, Unlinked, put_archived, put_archived_all, put_console,
    put_drops, put_flushed, put_flushed_all, put_reply, put_unlinked,
};
