//! What the requests of 9P2000 stand on: fids, refusals, open modes, what is told of files, and the rights to them (section 5 of the
//! Plan 9 manual).
#![tactic(auto)]

mod fid;
mod fids;
mod known_users;
mod looking;
mod mode;
mod refusal;
mod rights;
mod stated;
mod told;

pub use fid::{Fid, Opened};
pub use fids::{
    MOST_FIDS, NOFID, fid_of, in_use, is_listed, known, least, number_at, put_fid, release,
    release_all, remove_fid,
};
pub use known_users::KnownUsers;
pub use looking::{bytes_at, info_at, named_at, next_at, parent_at};
pub use mode::{Access, Mode};
pub use refusal::Refusal;
pub use rights::{may_give, may_write_above, owns, table_of, user_of};
pub use stated::Stated;
pub use told::{appends, is_dir, is_exclusive, put_record, qid_of, stat_of};
