//! Laws against leaks. Each function does nothing: its contract is the law, so that the law is proved with the crate.
ghost use Rattle.fo_cells_gaps.specs.Covered.{SameCovers, FillCovers, LinkCovers, ComesCovers, LevelsCover, RemoveCovers};
ghost use Rattle.fo_cells_gaps.specs.Gaps.{SameLoses, FillLoses, LinkLoses, ComesLoses, LevelsLose, RemoveLoses};
ghost use Rattle.fo_cells_gaps.specs.Snapshot.{SnapshotLoses};

use fo_cells_puts::Among;
use fo_cells_steps::Makes;

/// A put loses no block but what hangs from the entries of a source that leaves, and a removal none but what hangs from the slot and is not
/// queued. What the kept tree of the epoch before shares stays so.
pub fn puts_lose_none<M: Makes, S: Among>(_made: &M, _some: &S)
    ensures same { SameLoses (M.made _made.now) (M.origins _made.now) }
    ensures filled { FillLoses (M.made _made.now) (M.origins _made.now) (S.among _some.now) }
    ensures linked { LinkLoses (M.made _made.now) (M.origins _made.now) }
    ensures came { ComesLoses (M.made _made.now) (M.origins _made.now) (S.among _some.now) }
    ensures lost { LevelsLose (M.made _made.now) (M.origins _made.now) (S.among _some.now) }
    ensures removed { RemoveLoses (M.made _made.now) (M.origins _made.now) }
{}

/// A snapshot that begins loses no block, and what hung in the tree of the epoch that ended is shared by the tree that is kept of it.
pub fn snapshot_loses_none()
    ensures { SnapshotLoses }
{}

/// What is to be closed after a put or a removal is what the trait of blocks says (`Covers`), where all of the slot's own source that leaves
/// is queued.
pub fn puts_cover<M: Makes, S: Among>(_made: &M, _some: &S)
    ensures same { SameCovers (M.made _made.now) (M.origins _made.now) }
    ensures filled { FillCovers (M.made _made.now) (M.origins _made.now) (S.among _some.now) }
    ensures linked { LinkCovers (M.made _made.now) (M.origins _made.now) }
    ensures came { ComesCovers (M.made _made.now) (M.origins _made.now) (S.among _some.now) }
    ensures lost { LevelsCover (M.made _made.now) (M.origins _made.now) (S.among _some.now) }
    ensures removed { RemoveCovers (M.made _made.now) (M.origins _made.now) }
{}
