//! Archived forms, read and written: the entries, the top block and the root of an archive, and what the arena stores of a block
//! (docs/FORMATS.md, "Archived forms").
//!
//! A form is its fields in their order and a condition on their values, as in `fo_image`. In an archive all pointers are scores, and
//! nil is the score of the empty block. A block is stored without its tail: zeros at the end of data, entries and a top block, scores
//! of the empty block at the end of pointers.
//!
//! Proved: each value has one spelling and each spelling one value, a reader answers that value and refuses exactly where there is
//! none, and a writer spells what it was given; `grow` makes the block again of what `cut` leaves of it, and `cut` leaves the least
//! from which it can be made. Reading a top block takes memory for its record; no other call takes any.
//!
//! Not proved: that the fields are the ones that docs/FORMATS.md names (`test_vac` reads bytes that were worked out by hand).
#![tactic(auto)]

mod entry;
mod name;
mod root;
mod top;
mod truncation;
mod types;

pub use entry::{is_vac_entry, read_vac_entry, write_vac_entry};
pub use root::{is_vac_root, read_vac_root, write_vac_root};
pub use top::{is_vac_top, read_vac_top, write_vac_top};
pub use truncation::{cut, grow, tail_of};
pub use types::{BadVac, EMPTY, Tail, VacEntry, VacRoot, VacTop, VacTopError};
