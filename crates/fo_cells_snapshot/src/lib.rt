//! A snapshot begins: all that holds of a block cache at every moment holds then.
//!
//! From before the new root is given out until the super block that names it counts, removals are not spoken of; trees and what is beside are
//! kept by each step by itself. Proved (`snapshot_holds`): where nothing was made, all was settled, and nothing but block 1 and the new root
//! changed between, the whole (`HoldsMade` of `fo_cells_steps`) holds once it counts, with the removals of the epoch that ended as those of an
//! earlier one, and the old root waiting after block 1. It holds too where the snapshot is given up and its super block is overruled: the root
//! that it named waits after block 1. Not here: removals between.
#![tactic(auto)]

mod laws;

pub use laws::snapshot_holds;
