//! A record and its pair of entries are put into leaves of a directory that are owned.
//!
//! The entries come first, the second before the first; then the leaf of records is made to wait for them, and then it gets the
//! record. So in every image that a crash may leave, a record of the leaf has its first entry in use with its generation.
//!
//! Proved, over any blocks: nothing is refused. Memory has the two entries and the bytes of the leaf as they were given, and all else
//! as it was; the same slots wait to be cleared and the same blocks are to be closed, blocks keep labels and pins, and what hangs in
//! memory keeps its place. An entry that is cleared, or waits for it, leaves all but what hung below it. In every image each record of
//! the leaf has its pair, if it was so before: the first entry in use with its generation, the second exactly where it is a directory's.
//! And no name, number or pair stands at two places of a directory, over all images, where no image has the new one's in another leaf:
//! of a list of leaves, and of all that images themselves read along their own paths (`StandOnce`), whatever is in place.
#![tactic(auto)]

mod add;
mod free;
mod laws;
mod pair;
mod record;

pub use add::{add_name, clear_entry};
pub use free::{is_free, next_generation};
pub use laws::stands_once;
pub use pair::put_pair;
pub use record::{change_leaf, put_record};

// Passed on, so that a crate above names this one alone.
pub use fo_ports::Blocks;
