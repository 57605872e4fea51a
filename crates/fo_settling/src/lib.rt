//! A cache is settled: all that has a turn is written and settled, and the slots that wait are cleared.
//!
//! What waits for a leaf is cleared once the leaf is settled; then the blocks in which slots were cleared have turns, for which other slots
//! may wait. So turns and clearings follow one another until neither is left, which ends, since each clearing leaves fewer slots that wait.
//!
//! Proved: where it answers Ok, nothing has a turn, no slot waits, what is dirty is newborn, and what
//! is pinned is newborn or sealed; whatever it answers, what isn't doomed
//! stays (`Rests`), pinned blocks are what they were but for slots that waited, labels, pins, seals and room stay, and no removal is lost;
//! and of each slot that was cleared the leaf is settled at the end (`Clearings`), but where a slot of that leaf was cleared, too.
//! It is refused where the device failed, or for want of memory. Then what was settled until then stays so. The device is called at most
//! twice for each dirty block, three times for each slot that waits, and three times beside that (`calls_left` of `fo_cache`). Where slots
//! wait only for leaves of which no slot waits, it is called at most four times for each block that is dirty or of which a slot waits, and four
//! times beside that, and each such block is written at most twice (`Costs`).
//!
//! Not proved here: what is said of crash images, places and moments.
#![tactic(auto)]

mod rounds;

pub use rounds::settle;

// Passed on, so that a crate above names this one alone.
pub use fo_cache::Cache;
