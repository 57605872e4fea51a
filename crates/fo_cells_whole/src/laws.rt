//! The laws. Each function does nothing: its contract is the law, so that the law is proved with the crate.
ghost use Rattle.fo_cells_whole.specs.Tops.{NoneIsRefused};
ghost use Rattle.fo_cells_whole.specs.Whole.{OpeningWhole, WholeIsWithin, WaitsAreUsed, BytesWhole, WaitWhole, LaterWhole, EndWhole, RemoveWhole, ClearingWhole, SameWhole, FillWhole, LinkWhole, ComesWhole, LevelsWhole, NewBlockWhole, CopyWhole, IndexWhole, AsideWhole, CloseEarlierWhole, CloseNowWhole, PastDoneWhole, DoneWhole, TryWhole, CountWhole, OverruleWhole, RaiseWhole, SnapshotWhole, AbandonWhole};

use fo_cells_puts::Among;
use fo_cells_steps::Makes;

/// A cache opens over a settled device, with closed and older blocks where they have to hang.
pub fn opening_is_whole()
    ensures { OpeningWhole }
{}

/// All that stands somewhere is of the device, and so is its block of labels, and each leaf that waits.
pub fn whole_is_within<M: Makes>(_made: &M)
    ensures { WholeIsWithin (M.made _made.now) (M.origins _made.now) }
{}

/// Whatever a leaf waits for is in use in memory, or is the second of a pair whose first is.
pub fn waits_are_used<M: Makes>(_made: &M)
    ensures { WaitsAreUsed (M.made _made.now) (M.origins _made.now) }
{}

/// Bytes are put, a leaf waits for more, a slot begins to wait, a wait ends; a slot is cleared, at once or after it waited.
pub fn calls_keep_whole<M: Makes>(_made: &M)
    ensures bytes { BytesWhole (M.made _made.now) (M.origins _made.now) }
    ensures waits { WaitWhole (M.made _made.now) (M.origins _made.now) }
    ensures later { LaterWhole (M.made _made.now) (M.origins _made.now) }
    ensures end { EndWhole (M.made _made.now) (M.origins _made.now) }
    ensures at_once { RemoveWhole (M.made _made.now) (M.origins _made.now) }
    ensures cleared { ClearingWhole (M.made _made.now) (M.origins _made.now) }
{}

/// Each kind of put of a slot.
pub fn puts_keep_whole<M: Makes, S: Among>(_made: &M, _some: &S)
    ensures same { SameWhole (M.made _made.now) (M.origins _made.now) }
    ensures filled { FillWhole (M.made _made.now) (M.origins _made.now) (S.among _some.now) }
    ensures linked { LinkWhole (M.made _made.now) (M.origins _made.now) }
    ensures came { ComesWhole (M.made _made.now) (M.origins _made.now) (S.among _some.now) }
    ensures lost { LevelsWhole (M.made _made.now) (M.origins _made.now) (S.among _some.now) }
{}

/// A block is given out, empty or as a copy; gets its index; or is queued alone.
pub fn blocks_keep_whole<M: Makes>(_made: &M)
    ensures empty { NewBlockWhole (M.made _made.now) (M.origins _made.now) }
    ensures copied { CopyWhole (M.made _made.now) (M.origins _made.now) }
    ensures indexed { IndexWhole (M.made _made.now) (M.origins _made.now) }
    ensures aside { AsideWhole (M.made _made.now) (M.origins _made.now) }
{}

/// What waits is closed, of an earlier epoch or of the active one; and a removal with nothing left is gone.
pub fn closings_keep_whole<M: Makes>(_made: &M)
    ensures earlier { CloseEarlierWhole (M.made _made.now) (M.origins _made.now) }
    ensures now { CloseNowWhole (M.made _made.now) (M.origins _made.now) }
    ensures past_done { PastDoneWhole (M.made _made.now) (M.origins _made.now) }
    ensures done { DoneWhole (M.made _made.now) (M.origins _made.now) }
{}

/// A super block of the same epoch is tried, counts, and is overruled; and the low epoch rises.
pub fn supers_keep_whole<M: Makes>(_made: &M)
    ensures tried { TryWhole (M.made _made.now) (M.origins _made.now) }
    ensures counts { CountWhole (M.made _made.now) (M.origins _made.now) }
    ensures overruled { OverruleWhole (M.made _made.now) (M.origins _made.now) }
    ensures low { RaiseWhole (M.made _made.now) (M.origins _made.now) }
{}

/// A snapshot begins, or is given up, where nothing is made.
pub fn snapshots_keep_whole()
    ensures begun { SnapshotWhole }
    ensures abandoned { AbandonWhole }
{}

/// The invariant holds of no empty list of tops, of which anything else that it says would be true.
pub fn no_tops_are_refused()
    ensures { NoneIsRefused }
{}
