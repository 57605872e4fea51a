//! Laws of super blocks. Each function does nothing: its contract is the law, so that the law is proved with the crate.
ghost use Rattle.fo_cells_supers.specs.Supers.{TryKeeps, CountKeeps, OverruleKeeps, RaiseKeeps};

use fo_cells_steps::Makes;

/// A super block of the same epoch is tried, counts, and is overruled; and the low epoch rises.
pub fn supers_keep_all<M: Makes>(_made: &M)
    ensures tried { TryKeeps (M.made _made.now) (M.origins _made.now) }
    ensures counts { CountKeeps (M.made _made.now) (M.origins _made.now) }
    ensures overruled { OverruleKeeps (M.made _made.now) (M.origins _made.now) }
    ensures low { RaiseKeeps (M.made _made.now) (M.origins _made.now) }
{}
