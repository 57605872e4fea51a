//! The fields of which 9P2000's messages and stat records are made, as bytes (intro(5) and stat(5) of the Plan 9 manual).
#![tactic(auto)]

mod error;
mod lists;
mod parts;
mod qid;
mod reading;
mod stat;
mod writing;

pub use error::{Malformed, ReadError};
pub use lists::{Names, Qids};
pub use parts::StatParts;
pub use qid::Qid;
pub use reading::{
    block_at, brief_at, data_at, names_at, qid_at, qids_at, record_at, text_at, u8_at, u16_at,
    u32_at, u64_at,
};
pub use stat::stat_at;
pub use writing::{
    put_both, put_names, put_qid, put_qids, put_string, put_u8, put_u16, put_u32, put_u64,
};
