//! The laws. Each function does nothing: its contract is the law, so that the law is proved with the crate.
ghost use Rattle.std.specs.Prelude.{◌≡◌, ◌%◌, ℕ, List, IfSome};
ghost use Rattle.fo_ports.specs.of_image.declared.types.Kind.TheVariants.{Data};
ghost use Rattle.fo_ports.specs.of_image.declared.types.Pointer.TheVariants.{Nil};
ghost use Rattle.fo_ports.specs.of_image.declared.types.Label.{Label};
ghost use Rattle.fo_ports.specs.State.{Gives};
ghost use Rattle.fo_crash.specs.declared.place.Place.{Place};
ghost use Rattle.fo_crash.specs.Images.{Content, target};
ghost use Rattle.fo_crash.specs.Places.{place_below};
ghost use Rattle.fo_crash.specs.Spots.{Spot};
ghost use Rattle.fo_crash.specs.Steps.{AddsBytes, AddsNothing, AddsSlot, AddsSuper, AllAre, cleared};
ghost use Rattle.fo_shown.specs.Shown.{IsShownAt, ShowsNoMore};

use fo_crash::Slot;
use fo_ports::Blocks;

/// Where no image was added, nothing more is shown.
pub fn nothing_added<B: Blocks>(before: &B, after: &B)
    requires images { AddsNothing (B.state before.now).may_leave (B.state after.now).may_leave }
    ensures { ShowsNoMore (B.state before.now).may_leave (B.state after.now).may_leave }
{}

/// Where a block was given out, nothing more is shown: no path leads to it.
pub fn block_given<B: Blocks>(before: &B, after: &B, at: u32)
    requires gives { (c : Content) × (l : Label) × Gives at c l (B.state before.now) (B.state after.now) }
    ensures { ShowsNoMore (B.state before.now).may_leave (B.state after.now).may_leave }
{}

/// Where bytes were put into a block that is no leaf of records, nothing more is shown.
pub fn bytes_put<B: Blocks>(before: &B, after: &B, at: u32)
    requires images { (bytes : List ℕ) × AddsBytes (B.state before.now).now at bytes (λ image. Unit {0}) (B.state before.now).may_leave (B.state after.now).may_leave }
    requires elsewhere { (p : Place) → (B.state before.now).stands at p → (p.kind ≡ Data 0) × (p.rank % 32 ≡ 16) → ⊥ }
    ensures { ShowsNoMore (B.state before.now).may_leave (B.state after.now).may_leave }
{}

/// Where a slot was put that leads nowhere, nothing more is shown.
pub fn slot_put<B: Blocks>(before: &B, after: &B, at: u32, i: u32, slot: Slot)
    requires images { AddsSlot (B.state before.now).now at i slot (λ image. Unit {0}) (B.state before.now).may_leave (B.state after.now).may_leave }
    requires nowhere { target slot ≡ Nil }
    ensures { ShowsNoMore (B.state before.now).may_leave (B.state after.now).may_leave }
{}

/// Where a slot was cleared, or waits to be, nothing more is shown.
pub fn slot_cleared<B: Blocks>(before: &B, after: &B, at: u32, i: u32, leaf: Option<u32>)
    requires images { AddsSlot (B.state before.now).now at i (cleared (((B.state before.now).now at).slot i)) (λ image. IfSome leaf (λ l. (image l).bytes ≡ ((B.state before.now).now l).bytes)) (B.state before.now).may_leave (B.state after.now).may_leave }
    ensures { ShowsNoMore (B.state before.now).may_leave (B.state after.now).may_leave }
{}

/// Where a slot was put that leads where memory's old one led, to the same place, nothing more is shown.
pub fn slot_stays<B: Blocks>(before: &B, after: &B, at: u32, i: u32, slot: Slot)
    requires images { AddsSlot (B.state before.now).now at i slot (λ image. Unit {0}) (B.state before.now).may_leave (B.state after.now).may_leave }
    requires leads { target slot ≡ target (((B.state before.now).now at).slot i) }
    requires below { (p : Place) → (B.state before.now).stands at p → place_below p i slot ≡ place_below p i (((B.state before.now).now at).slot i) }
    ensures { ShowsNoMore (B.state before.now).may_leave (B.state after.now).may_leave }
{}

/// Where the super block was written with the slots that memory had, as for a file number, nothing more is shown.
pub fn super_written<B: Blocks>(before: &B, after: &B)
    requires images { AddsSuper (B.state before.now).now (λ image. (i : ℕ) → (image 1).slot i ≡ ((B.state before.now).now 1).slot i) (B.state before.now).may_leave (B.state after.now).may_leave }
    ensures { ShowsNoMore (B.state before.now).may_leave (B.state after.now).may_leave }
{}

/// Where nothing more is shown after one change, nor after the next, nothing more is shown after both.
pub fn shown_joins<B: Blocks>(before: &B, between: &B, after: &B)
    requires first { ShowsNoMore (B.state before.now).may_leave (B.state between.now).may_leave }
    requires second { ShowsNoMore (B.state between.now).may_leave (B.state after.now).may_leave }
    ensures { ShowsNoMore (B.state before.now).may_leave (B.state after.now).may_leave }
{}

/// Where all is settled, memory shows what is shown.
pub fn all_settled<B: Blocks>(on: &B)
    requires settled { AllAre (B.state on.now).now (B.state on.now).may_leave }
    ensures { (p : Spot) (bytes : List ℕ) → IsShownAt (B.state on.now).may_leave p bytes → IsShownAt (λ image. image ≡ (B.state on.now).now) p bytes }
{}
