//! Laws of minds. The function does nothing: its contract is the law, so that the law is proved with the crate.
ghost use Rattle.fo_cells_minds.specs.Minds.{BytesStep, SlotStep, AwaitStep, WaitStep, EndStep, ClearingStep, GivingStep, LabelStep};

/// What a cache changes is a step of what is known.
pub fn minds_step()
    ensures bytes { BytesStep }
    ensures slot { SlotStep }
    ensures begins { AwaitStep }
    ensures more { WaitStep }
    ensures ends { EndStep }
    ensures cleared { ClearingStep }
    ensures given { GivingStep }
    ensures label { LabelStep }
{}
