//! A cache is opened from a device, and left so that the device has all of it.
//!
//! Opening reads the header, block 1 and the label table, each block once, and writes nothing. It tests what a cache asks of them; that the
//! tree is sound is tested by a check before. At the end all is settled, and the next file number goes into the super block.
//!
//! Proved: what is opened has the labels and the super block that were read, each of which spells what it has to (`Opens`), and holds
//! nothing; each refusal has its reason, in what was read (`Refuses`), and gives the device back. Over any device a size is refused exactly
//! where it is out of range, and a fault comes only where the device's count rose. Where `finish` answers Ok, nothing has a turn, nothing is
//! in doubt, no slot waits, and block 1 says the next file number; each block has one version, as far as the device tells. Whatever it
//! answers, block 0 is as it was. It calls the device two or three times at most for each dirty block and each slot that waits, and five
//! times beside that (`calls_left` of `fo_cache`). It wants no memory: it fails by a fault of the device alone.
//!
//! Not proved here: what is said of crash images, places and moments.
#![tactic(auto)]

mod ending;
mod error;
mod labels;
mod opening;
mod reads;
mod rounds;
mod turns;

pub use ending::finish;
pub use error::{Refused, Why};
pub use opening::open;
pub use turns::take_turns;
