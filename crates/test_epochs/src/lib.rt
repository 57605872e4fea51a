//! Many names of a directory over blocks in memory (`test_names`) that are made, removed and renamed in one epoch and in the next, for tests.
//!
//! In an order at random all names are made, every third is removed, and the others get longer names; in a new epoch those that aren't there are
//! made, others removed, and all that are there get longer names again. After each hundredth step, and at the ends of these phases, the
//! directory is listed from the start and each name is looked up, and what is seen is compared with what it should be. `first_epoch` does so in
//! the first epoch alone. `both_epochs` does so in the second, and looks in the first at the ends of phases only, as looks take time in the square
//! of the names; then each leaf that is there has to be one of the new epoch, and each leaf of the older one to hold what it held.
//!
//! A step that is refused for want of memory must leave the directory as it was, and is granted when it is made again; or else the directory
//! is as after it.
#![tactic(auto)]

mod epochs;
mod expected;
mod looks;
mod older;
mod round;

pub use epochs::{both_epochs, first_epoch};
pub use round::Counts;
