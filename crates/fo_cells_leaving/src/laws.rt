//! Laws of what a put queues. The function does nothing: its contract is the law, so that the law is proved with the crate.
ghost use Rattle.fo_cells_leaving.specs.Leaving.{ComesLeave, LevelsLeave};

use fo_cells_puts::Among;
use fo_cells_steps::Makes;

/// Who may lead to what is queued, where a made block comes in the place of another, and where levels are lost. (`_some`: what leaves and is
/// not queued.)
pub fn put_removals_leave<M: Makes, S: Among>(_made: &M, _some: &S)
    ensures came { ComesLeave (M.made _made.now) (M.origins _made.now) (S.among _some.now) }
    ensures lost { LevelsLeave (M.made _made.now) (M.origins _made.now) (S.among _some.now) }
{}
