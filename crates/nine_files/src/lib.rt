//! What a request of 9P2000 does to the files for one fid: walking, reading and writing, opening and creating, removing, changing a
//! stat (section 5 of the Plan 9 manual). The table of fids stands above.
#![tactic(auto)]

mod opening;
mod reading;
mod removing;
mod rights;
mod stating;
mod walking;

pub use opening::{admit, admit_new, new_mode, open_fid, truncate};
pub use reading::{
    Records, is_bad_offset, list_records, opened_of, read_to, start_of, write_bytes,
};
pub use removing::{remove_on_close, remove_there};
pub use stating::{change_of, changes_fixed, is_idle, restate, settle, touches_fixed};
pub use walking::{Walked, walk_from};
