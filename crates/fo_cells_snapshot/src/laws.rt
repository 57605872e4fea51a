//! The laws of a snapshot. Each function does nothing: its contract is the law, so that the law is proved with the crate.
ghost use Rattle.fo_cells_snapshot.specs.Abandon.{AbandonHolds};
ghost use Rattle.fo_cells_snapshot.specs.Snapshot.{SnapshotHolds};

/// A snapshot begins, where nothing is made: the removals of the epoch that ended are of an earlier one, the old root waits after block 1. Or
/// it is given up, its super block overruled: the root that it named waits after block 1.
pub fn snapshot_holds()
    ensures begun { SnapshotHolds }
    ensures abandoned { AbandonHolds }
{}
