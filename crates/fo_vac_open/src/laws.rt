//! Laws of what an arena holds. Each function does nothing: its contract is the law, so that the law is proved with the crate.
ghost use Rattle.fo_vac_open.specs.Laws.{HeldIs, StaysInArena, StoredIs};

/// The function that reads an arena gives just what is held.
pub fn what_is_held_is_read()
    ensures { HeldIs }
{}

/// No archive leads to a block of a main device.
pub fn archives_stay_in_the_arena()
    ensures { StaysInArena }
{}

/// The bytes of the used places are a function of what is in memory and of what the device holds.
pub fn what_is_stored_is_read()
    ensures { StoredIs }
{}
