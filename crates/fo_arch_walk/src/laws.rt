//! Laws of the blocks of a snapshot. Each function does nothing: its contract is the law, so that the law is proved with the crate.
ghost use Rattle.std.specs.Prelude.{◌≢◌, ℕ};
ghost use Rattle.fo_crash.specs.declared.place.Place.{Place};
ghost use Rattle.fo_arch_walk.specs.Reached.{Comes};

use fo_ports::Blocks;

/// Where the device tells, what a path from the root of a kept snapshot comes to in memory stands at its place, in each state anew.
pub fn what_is_reached_stands<B: Blocks>(on: &B)
    ensures { (root at : ℕ) (p : Place) → (B.state on.now).tells → (B.state on.now).tops root → root ≢ 1 → Comes (B.state on.now).now root at p → (B.state on.now).stands at p }
{}
