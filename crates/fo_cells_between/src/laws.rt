//! The laws of a snapshot. Each function does nothing: its contract is the law, so that the law is proved with the crate.
ghost use Rattle.fo_cells_between.specs.Steps.{GiveRootKeeps, TryRootKeeps, CountRootKeeps, DropRootKeeps, DropRootLoses};

/// The new root is given out, and the super block that names it is tried.
pub fn snapshot_begins()
    ensures given { GiveRootKeeps }
    ensures tried { TryRootKeeps }
{}

/// That super block counts; or the snapshot is given up, whether a super block was tried and overruled or not, and no block is lost.
pub fn snapshot_ends()
    ensures counts { CountRootKeeps }
    ensures dropped { DropRootKeeps }
    ensures lost { DropRootLoses }
{}
