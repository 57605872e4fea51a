//! Laws of the steps. Each function does nothing: its contract is the law, so that the law is proved with the crate.
ghost use Rattle.fo_cells.specs.Laws.{WriteIsSafe, LabelIsSafe, SyncIsSafe, EndIsSafe, SlotIsSafe, BytesAreSafe, AwaitIsSafe, RemovalIsSafe, WaitIsSafe, ClearingIsSafe, GivingIsSafe, IndexingIsSafe, ClosingIsSafe, SuperIsSafe, CountingIsSafe, OverrulingIsSafe, ImagesAreShown, DeviceIsLeft, DeviceHasImage, MemoryIsLeft, PlacesHold, OlderIsSure, SuperIsKnown, AllIsSettled, LabelIsNamed, PlacesStay, ClearingsJoin};

/// A write of a block or of a block of labels, a sync, and the end of a wait add no image, and keep the invariant.
pub fn device_steps_are_safe()
    ensures write { WriteIsSafe }
    ensures label { LabelIsSafe }
    ensures sync { SyncIsSafe }
    ensures end { EndIsSafe }
{}

/// A put adds the images with that slot, or with those bytes, and keeps the invariant.
pub fn puts_are_safe()
    ensures slot { SlotIsSafe }
    ensures bytes { BytesAreSafe }
    ensures removal { RemovalIsSafe }
{}

/// A slot that begins to wait adds the images with the cleared slot and the leaf of now; that it is cleared then adds none. Nor do more
/// waits.
pub fn waits_are_safe()
    ensures begins { AwaitIsSafe }
    ensures cleared { ClearingIsSafe }
    ensures joined { ClearingsJoin }
    ensures more { WaitIsSafe }
{}

/// A block that is given out is in all images what it was given out with, and no path leads to it. One that is closed stands nowhere, or
/// keeps a label that fits.
pub fn blocks_are_safe()
    ensures given { GivingIsSafe }
    ensures indexed { IndexingIsSafe }
    ensures closed { ClosingIsSafe }
{}

/// A super block that is tried is in the images that it adds, and is the doubt. Where it alone is on the device, it counts.
pub fn supers_are_safe()
    ensures tried { SuperIsSafe }
    ensures counts { CountingIsSafe }
    ensures overruled { OverrulingIsSafe }
{}

/// What the images are.
pub fn images_are_known()
    ensures shown { ImagesAreShown }
    ensures device { DeviceIsLeft }
    ensures some { DeviceHasImage }
    ensures memory { MemoryIsLeft }
    ensures places { PlacesHold }
    ensures older { OlderIsSure }
    ensures super_known { SuperIsKnown }
    ensures settled { AllIsSettled }
    ensures named { LabelIsNamed }
    ensures stay { PlacesStay }
{}
