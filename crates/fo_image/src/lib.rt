//! The formats of the main device and of the arena, read and written (docs/FORMATS.md).
//!
//! A format is its fields in their order and a condition on their values; bytes spell a value where they are its fields, and zeros
//! behind them. A place is where something stands: the block, and the byte in it.
//!
//! Proved: each value has one spelling and each spelling one value, a reader answers that value and refuses exactly where there is
//! none, and a writer spells what it was given. Want of memory may be answered where a record or a root block is read.
//!
//! Not proved: that the fields are the ones that docs/FORMATS.md names (`test_disk` reads bytes that were worked out by hand).
#![tactic(auto)]

mod arena;
mod blocks;
mod entries;
mod labels;
mod parts;
mod places;
mod pointers;
mod record;
mod records;
mod roots;
mod types;

pub use arena::{read_arena_head, read_arena_line, write_arena_head, write_arena_line};
pub use blocks::{read_header, read_super, write_header, write_super};
pub use entries::{is_entry, least_depth, read_entry, write_entry};
pub use fo_base::{BLOCK, Bytes as Text};
pub use labels::{is_usable, read_label, write_label};
pub use parts::{Part, is_spelled, is_zero, score_at, u16_at, u32_at, u64_at, write_parts};
pub use places::{arena_places, first_data, label_blocks, label_place, line_place, stored_block};
pub use pointers::{is_pointer, is_score, read_pointer, write_pointer};
pub use record::{Record, RecordError, RootBlock};
pub use records::{is_record, read_record, record_len, write_record};
pub use roots::{is_root, read_root, write_root};
pub use types::{
    ArenaHead, ArenaLine, Bad, Entry, Header, Kind, Label, Pointer, Score, State, Super,
};

// Passed on, so that a crate above names this one alone.
pub use fo_base::{Memory, is_text};
