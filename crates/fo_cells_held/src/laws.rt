//! Laws of what a cache keeps. Each function does nothing: its contract is the law, so that the law is proved with the crate.
ghost use Rattle.fo_cells_held.specs.Room.{RoomStays, GivenIsOne, ClosedIsNone, RaisedIsNone};
ghost use Rattle.fo_cells_held.specs.Laws.{ChangeIsHeld, ReleaseIsHeld, UnheldIsKnown, CleanIsKnown, LabelsStayTimed, TimedIsSet, DirtyStaysLive, ClosedIsClean, CleanBegins};

/// Calls in memory keep buffers, and a buffer that is given up does. What has no buffer is settled.
pub fn buffers_are_kept()
    ensures change { ChangeIsHeld }
    ensures release { ReleaseIsHeld }
    ensures unheld { UnheldIsKnown }
    ensures clean { CleanIsKnown }
{}

/// A label that changed before the write that was settled last is the same in every version of its block.
pub fn labels_are_timed()
    ensures change { LabelsStayTimed }
    ensures set { TimedIsSet }
{}

/// A data block gets a new version only while it is live and current, or was closed in the epoch in which it was given out.
pub fn only_live_is_dirty()
    ensures change { DirtyStaysLive }
    ensures closed { ClosedIsClean }
    ensures begins { CleanBegins }
{}

/// Room is left for what was promised: usable blocks, buffers, removals, waits, waiting slots.
pub fn room_is_kept()
    ensures spends { RoomStays }
    ensures given { GivenIsOne }
    ensures closed { ClosedIsNone }
    ensures raised { RaisedIsNone }
{}
