//! What the calls on one leaf do to the whole list of the records of a directory.
//!
//! Proved, over any blocks and any source, as a law (`leaf_rows`): where a call changed the bytes of one leaf of the records, and slots of
//! leaves of entries that led nowhere, the source stands over the blocks still; and, where the device tells, each other leaf has the
//! records that it had, so the list of all is as it was but for the records of this leaf. A record that is added to a leaf, taken out of it
//! or changed in it is one so in the directory. Where an entry was cleared, or waits for it (`entry_rows`), the list stays; and where a pair
//! was put (`pair_rows`), each other pair of the entries is what it was. A move
//! changes the records of its two leaves alone (`move_rows`).
#![tactic(auto)]

mod laws;

pub use laws::{entry_rows, leaf_rows, move_rows, pair_rows};
