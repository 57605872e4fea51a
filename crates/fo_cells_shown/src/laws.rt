//! The laws. Each function does nothing: its contract is the law, so that the law is proved with the crate.
ghost use Rattle.fo_cells_shown.specs.Labels.{LabelsAreShown};
ghost use Rattle.fo_cells_shown.specs.Closed.{MoveKeepsClosed, GiveKeepsClosed, CloseKeepsClosed, RaiseKeepsClosed, RaiseLoses, MoveStrays, CloseStrays};
ghost use Rattle.fo_cells_shown.specs.Opening.{OpensClosed, OpensShared, FreshHangs};
ghost use Rattle.fo_cells_shown.specs.Shown.{DeviceIsShown, StandsWithin};

use fo_cells_lost::Gaps;

/// Each block that an image of the device reaches has a label there that fits, whichever version of its block of labels is left.
pub fn labels_are_shown()
    ensures { LabelsAreShown }
{}

/// Each image of the device is, in all that tops reach, one that a crash may leave by what is known; and what is reached has a label there
/// that fits. All that stands is of the device.
pub fn device_is_shown()
    ensures shown { DeviceIsShown }
    ensures within { StandsWithin }
{}

/// Where a cache opens, what was closed and may not be given out yet is in a kept tree, and what is older in the tree of memory in that of
/// the epoch before, exactly where memory has it hang there; so it is of a fresh device.
pub fn closed_begin()
    ensures closed { OpensClosed }
    ensures shared { OpensShared }
    ensures fresh { FreshHangs }
{}

/// What was closed and may not be given out yet is in a kept tree, after each step.
pub fn closed_are_kept<G: Gaps>(_before: &G, _after: &G)
    ensures moved { MoveKeepsClosed }
    ensures given { GiveKeepsClosed }
    ensures closed { CloseKeepsClosed (G.tree _before.now) (G.tree _after.now) }
    ensures raised { RaiseKeepsClosed }
{}

/// A low epoch that rises loses no block but those that left the tree without being closed; and what does so is in the gap of a step.
pub fn low_loses_none<G: Gaps>(_before: &G, _after: &G)
    ensures raised { RaiseLoses (G.tree _before.now) }
    ensures moved { MoveStrays (G.tree _before.now) (G.tree _after.now) (G.gap _after.now) }
    ensures closed { CloseStrays (G.tree _before.now) (G.tree _after.now) }
{}
