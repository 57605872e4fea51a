//! A record moves from one leaf of a directory to another.
//!
//! It is taken out of its leaf, all is settled, and it is put into the other leaf. Where the settling fails it is put back: its leaf
//! waits for the entries again, since after a settling that failed no wait is known to be left. `move_name` takes the bytes of both
//! leaves as they are to be; `move_record` makes them, of one record that goes to the end of the other leaf, or has no room there.
//!
//! Proved, over any blocks: the call is refused by a fault alone. Where it is granted memory has the two leaves as they were given,
//! where it is refused as they were. In every image each record of the directory has both entries of its pair, if it was so before; and
//! no name, number or pair stands at two places, over all images: of a list of leaves with both among them, and of all that images
//! themselves read along their own paths (`StandOnce`), where memory has both as leaves of records of one directory. All else stays, but
//! for what was to be closed or waited to be cleared; once the move is granted all is settled but the bytes of the second leaf.
#![tactic(auto)]

mod moves;
mod record;

pub use moves::move_name;
pub use record::move_record;
