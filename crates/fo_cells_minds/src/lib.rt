//! What a block cache changes of what it keeps, as steps of what is known, over any device.
//!
//! Proved, one law a change of a `Mind`: bytes that are put, a slot that is put or cleared, a slot that begins to wait, waits that are more or
//! end, a slot that waited and whose leaf is settled, a block that is given out, and a label are the steps of `fo_cells` (`PutsInto`, `Puts`,
//! `Awaits`, `WaitsMore`, `Ends`, `Fires`, `Gives`, `NewLabel`) of what is known. So a cache shows what its fields do, and no more of versions.
#![tactic(auto)]

mod laws;

pub use laws::minds_step;
