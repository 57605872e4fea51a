//! Laws of the trees. Each function does nothing: its contract is the law, so that the law is proved with the crate.
ghost use Rattle.fo_cells_epochs.specs.Laws.{WriteKeeps, LabelKeeps, SyncKeeps, EndKeeps, ClearingKeeps, SlotKeeps, BytesKeep, AwaitKeeps, WaitKeeps, GivingKeeps, IndexingKeeps, ClosingKeeps, SuperKeeps, CountingKeeps, SnapshotKeeps, LowKeeps, OverrulingKeeps};

/// Steps of the device keep the invariant with snapshots, and so do slots that are cleared.
pub fn device_keeps_epochs()
    ensures write { WriteKeeps }
    ensures label { LabelKeeps }
    ensures sync { SyncKeeps }
    ensures end { EndKeeps }
    ensures cleared { ClearingKeeps }
{}

/// So do steps in memory.
pub fn memory_keeps_epochs()
    ensures slot { SlotKeeps }
    ensures bytes { BytesKeep }
    ensures begins { AwaitKeeps }
    ensures more { WaitKeeps }
    ensures given { GivingKeeps }
    ensures indexed { IndexingKeeps }
    ensures closed { ClosingKeeps }
{}

/// So do super blocks that are tried, count, and are overruled, a snapshot, and a low epoch that rises.
pub fn supers_keep_epochs()
    ensures tried { SuperKeeps }
    ensures counts { CountingKeeps }
    ensures overruled { OverrulingKeeps }
    ensures begins { SnapshotKeeps }
    ensures low { LowKeeps }
{}
