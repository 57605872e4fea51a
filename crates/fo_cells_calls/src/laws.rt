//! Laws of the calls. Each function does nothing: its contract is the law, so that the law is proved with the crate.
ghost use Rattle.fo_cells.specs.Known.{Known};
ghost use Rattle.fo_cells_calls.specs.State.{Rest};
ghost use Rattle.fo_cells_calls.specs.Laws.{GetLooks, PutBytesAdds, PutSlotAdds, RemoveSlotAdds, RemoveSlotWaits, WaitForAdds, UsableIsNowhere, GivesAdds, NumberAdds, NumberPasses, TakenLeaves, RetireLeaves, MomentsPass, WriteRests, DeviceRests, ClearingRests, ClosingRests, SettleLeaves, LawsHold};

/// What a cache knows of its blocks, and what it keeps elsewhere.
pub trait Cells {
    /// What is known of each block.
    ghost known: { Self → Known };

    /// All else that the trait of blocks speaks of.
    ghost rest: { Self → Rest };
}

/// `get`.
pub fn looks<C: Cells>(_old: &C, _new: &C)
    ensures get { GetLooks (C.known _old.now) (C.rest _old.now) (C.rest _new.now) }
{}

/// `put_bytes`, `put_slot`, `wait_for`.
pub fn puts<C: Cells>(_old: &C, _new: &C)
    ensures bytes { PutBytesAdds (C.known _old.now) (C.known _new.now) (C.rest _old.now) (C.rest _new.now) }
    ensures slot { PutSlotAdds (C.known _old.now) (C.known _new.now) (C.rest _old.now) (C.rest _new.now) }
    ensures wait { WaitForAdds (C.known _old.now) (C.known _new.now) (C.rest _old.now) (C.rest _new.now) }
{}

/// `remove_slot`, at once and waiting.
pub fn removes<C: Cells>(_old: &C, _new: &C)
    ensures at_once { RemoveSlotAdds (C.known _old.now) (C.known _new.now) (C.rest _old.now) (C.rest _new.now) }
    ensures waits { RemoveSlotWaits (C.known _old.now) (C.known _new.now) (C.rest _old.now) (C.rest _new.now) }
{}

/// `new_block`, `copy`: what may be given out stands nowhere.
pub fn gives<C: Cells>(_old: &C, _new: &C)
    ensures nowhere { UsableIsNowhere (C.known _old.now) }
    ensures block { GivesAdds (C.known _old.now) (C.known _new.now) (C.rest _old.now) (C.rest _new.now) }
{}

/// `number`: what it adds, and its moments.
pub fn numbers<C: Cells>(_old: &C, _new: &C)
    ensures number { NumberAdds (C.known _old.now) (C.known _new.now) (C.rest _old.now) (C.rest _new.now) }
    ensures passes { NumberPasses (C.known _old.now) (C.known _new.now) (C.rest _old.now) (C.rest _new.now) }
{}

/// `number_taken`, `fetch`, `retire`.
pub fn leaves<C: Cells>(_old: &C, _new: &C)
    ensures taken { TakenLeaves (C.known _old.now) (C.known _new.now) (C.rest _old.now) (C.rest _new.now) }
    ensures retired { RetireLeaves (C.known _old.now) (C.known _new.now) (C.rest _old.now) (C.rest _new.now) }
{}

/// The moments of `reserve`, `settle`, flushing and closing.
pub fn moments_pass<C: Cells>(_old: &C, _new: &C)
    ensures { MomentsPass (C.known _old.now) (C.known _new.now) (C.rest _old.now) (C.rest _new.now) }
{}

/// The steps of `reserve`, `settle`, flushing and closing.
pub fn device_rests<C: Cells>(_old: &C, _new: &C)
    ensures write { WriteRests (C.known _old.now) (C.known _new.now) (C.rest _old.now) (C.rest _new.now) }
    ensures device { DeviceRests (C.known _old.now) (C.known _new.now) (C.rest _old.now) (C.rest _new.now) }
    ensures clearing { ClearingRests (C.known _old.now) (C.known _new.now) (C.rest _old.now) (C.rest _new.now) }
    ensures closing { ClosingRests (C.known _old.now) (C.known _new.now) (C.rest _old.now) (C.rest _new.now) }
{}

/// `settle`, answered Ok.
pub fn settles<C: Cells>(_cells: &C)
    ensures all { SettleLeaves (C.known _cells.now) (C.rest _cells.now) }
{}

/// Laws of the trait of blocks.
pub fn holds_laws<C: Cells>(_cells: &C)
    ensures laws { LawsHold (C.known _cells.now) (C.rest _cells.now) }
{}
