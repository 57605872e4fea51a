//! A record is added at the end of a leaf of a directory, with its pair: `add_record` with a pair that is known to be free, `add_new` with
//! one that it tests, of which the record gets the number, and the generation raised by 1.
//!
//! Proved, over any blocks: where the record has no room nothing is changed. Else memory has the record behind the others of its leaf,
//! and the two entries. In every image each record of the leaf has both entries of its pair as it needs them, if it was so before; and
//! no name, number or pair stands at two places of the directory over all images, where no image has the new one's in another leaf: of a
//! list of leaves, and of all that images show of records.
#![tactic(auto)]

mod add;
mod new;

pub use add::add_record;
pub use new::{Outcome, add_new};
