//! Laws of an opening and of places. Each function does nothing: its contract is the law, so that the law is proved with the crate.
ghost use Rattle.fo_cells_turns.specs.Opening.{OpeningHolds};
ghost use Rattle.fo_cells_turns.specs.Places.{MadeHangs, PlacesStay, StepsStand};

use fo_cells_steps::Makes;

/// A cache opens over a device that is settled, where each block of the tree has one parent: all holds, with nothing made.
pub fn opening_holds()
    ensures { OpeningHolds }
{}

/// After each step but that a block is given out or gets its index nothing stands anew; and then, however many steps there were, what hangs
/// from block 1 or from what was made stands where it stood. In no image does a path from a top lead to what was made.
pub fn places_stay<M: Makes>(_made: &M, _after: &M)
    ensures steps { StepsStand }
    ensures hangs { MadeHangs (M.made _made.now) (M.origins _made.now) }
    ensures places { PlacesStay (M.made _made.now) (M.origins _made.now) (M.made _after.now) (M.origins _after.now) }
{}
