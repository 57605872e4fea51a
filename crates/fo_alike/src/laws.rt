//! The laws. Each function does nothing: its contract is the law, so that the law is proved with the crate.
ghost use Rattle.std.specs.Prelude.{◌≡◌, ◌≢◌, ◌⊎◌, ◌%◌, ℕ, List};
ghost use Rattle.fo_ports.specs.of_image.declared.types.Kind.TheVariants.{Data, Dir, Root};
ghost use Rattle.fo_ports.specs.of_image.declared.types.Pointer.TheVariants.{Local};
ghost use Rattle.fo_ports.specs.of_image.declared.types.Label.{Label};
ghost use Rattle.fo_ports.specs.Blocks.{IsInner};
ghost use Rattle.fo_ports.specs.State.{Gives};
ghost use Rattle.fo_crash.specs.declared.place.Place.{Place};
ghost use Rattle.fo_crash.specs.declared.slot.Slot.TheVariants.{Pointer as To};
ghost use Rattle.fo_crash.specs.Images.{Content, SameContent, target};
ghost use Rattle.fo_crash.specs.Names.{SameUse};
ghost use Rattle.fo_crash.specs.Places.{place_below};
ghost use Rattle.fo_crash.specs.Spots.{Spot, spot_below};
ghost use Rattle.fo_crash.specs.Steps.{AddsBytes, AddsNothing, AddsSlot, AddsSuper, AllAre, IsSure};
ghost use Rattle.fo_shown.specs.Shown.{IsOfRecords, ShowsNoMore};
ghost use Rattle.fo_alike.specs.Like.{IsOfEntries, IsZeros, NoneInUse, LeadsSame, ShowsSame};

use fo_crash::Slot;
use fo_ports::Blocks;

/// Where no image was added, new images show the same.
pub fn nothing_added<B: Blocks>(before: &B, after: &B)
    requires images { AddsNothing (B.state before.now).may_leave (B.state after.now).may_leave }
    ensures { ShowsSame (B.state before.now).may_leave (B.state after.now).may_leave }
{}

/// Where a block was given out, new images show the same: no path leads to it.
pub fn block_given<B: Blocks>(before: &B, after: &B, at: u32)
    requires gives { (c : Content) × (l : Label) × Gives at c l (B.state before.now) (B.state after.now) }
    ensures { ShowsSame (B.state before.now).may_leave (B.state after.now).may_leave }
{}

/// Where bytes were put into a block that is no leaf of records, new images show the same.
pub fn bytes_put<B: Blocks>(before: &B, after: &B, at: u32)
    requires images { (bytes : List ℕ) × AddsBytes (B.state before.now).now at bytes (λ image. Unit {0}) (B.state before.now).may_leave (B.state after.now).may_leave }
    requires elsewhere { (p : Place) → (B.state before.now).stands at p → (p.kind ≡ Data 0) × (p.rank % 32 ≡ 16) → ⊥ }
    ensures { ShowsSame (B.state before.now).may_leave (B.state after.now).may_leave }
{}

/// Where a slot was put that leads where memory's old one led, to the same place, in the same use, new images show the same.
pub fn slot_stays<B: Blocks>(before: &B, after: &B, at: u32, i: u32, slot: Slot)
    requires images { AddsSlot (B.state before.now).now at i slot (λ image. Unit {0}) (B.state before.now).may_leave (B.state after.now).may_leave }
    requires leads { target slot ≡ target (((B.state before.now).now at).slot i) }
    requires below { (p : Place) → (B.state before.now).stands at p → place_below p i slot ≡ place_below p i (((B.state before.now).now at).slot i) }
    requires in_use { SameUse slot (((B.state before.now).now at).slot i) }
    ensures { ShowsSame (B.state before.now).may_leave (B.state after.now).may_leave }
{}

/// Where the super block was written with the slots that memory had, as for a file number, new images show the same.
pub fn super_written<B: Blocks>(before: &B, after: &B)
    requires images { AddsSuper (B.state before.now).now (λ image. (i : ℕ) → (image 1).slot i ≡ ((B.state before.now).now 1).slot i) (B.state before.now).may_leave (B.state after.now).may_leave }
    ensures { ShowsSame (B.state before.now).may_leave (B.state after.now).may_leave }
{}

/// Where a slot was put that leads to the same as memory's old one, new images show the same.
pub fn slot_linked<B: Blocks>(before: &B, after: &B, at: u32, i: u32, slot: Slot)
    requires images { AddsSlot (B.state before.now).now at i slot (λ image. Unit {0}) (B.state before.now).may_leave (B.state after.now).may_leave }
    requires same { LeadsSame (B.state before.now).may_leave (B.state before.now).now at i slot }
    ensures { ShowsSame (B.state before.now).may_leave (B.state after.now).may_leave }
{}

/// Where a slot of a block of pointers was led to a copy of the block to which it led, new images show the same.
pub fn slot_copied<B: Blocks>(before: &B, after: &B, at: u32, i: u32, below: u32, copy: u32)
    requires images { AddsSlot (B.state before.now).now at i (To (Local copy)) (λ image. Unit {0}) (B.state before.now).may_leave (B.state after.now).may_leave }
    requires inner { (p : Place) → (B.state before.now).stands at p → IsInner p.kind }
    requires leads { target (((B.state before.now).now at).slot i) ≡ Local below }
    requires same { SameContent ((B.state after.now).now copy) ((B.state before.now).now below) }
    requires sure_below { IsSure (B.state before.now).now below (B.state before.now).may_leave }
    requires sure_copy { IsSure (B.state after.now).now copy (B.state after.now).may_leave }
    ensures { ShowsSame (B.state before.now).may_leave (B.state after.now).may_leave }
{}

/// Where a slot of a block of pointers was led to a bare block, that leads to none, new images show the same, if the slot led to no block, or
/// to data. A bare leaf of records is zeros, and one of entries has nothing in use.
pub fn slot_new<B: Blocks>(before: &B, after: &B, at: u32, i: u32, bare: u32)
    requires images { AddsSlot (B.state before.now).now at i (To (Local bare)) (λ image. Unit {0}) (B.state before.now).may_leave (B.state after.now).may_leave }
    requires inner { (p : Place) → (B.state before.now).stands at p → IsInner p.kind }
    requires none { (j b : ℕ) → target (((B.state after.now).now bare).slot j) ≢ Local b }
    requires zeros { (p : Spot) → (B.state before.now).stands at p.place → IsOfRecords (spot_below p i (To (Local bare))) → IsZeros ((B.state after.now).now bare) }
    requires unused { (p : Spot) → (B.state before.now).stands at p.place → IsOfEntries (spot_below p i (To (Local bare))) → NoneInUse ((B.state after.now).now bare) }
    requires led { (p : Place) → (B.state before.now).stands at p → ((c : ℕ) → target (((B.state before.now).now at).slot i) ≢ Local c) ⊎ ((level : ℕ) × ((place_below p i (((B.state before.now).now at).slot i)).kind ≡ Data level)) }
    requires sure { IsSure (B.state after.now).now bare (B.state after.now).may_leave }
    ensures { ShowsSame (B.state before.now).may_leave (B.state after.now).may_leave }
{}

/// Where a slot was put that leads to no block, in place of one that led to none, or to data, new images show the same, if in a leaf of entries
/// it is in the same use.
pub fn slot_gone<B: Blocks>(before: &B, after: &B, at: u32, i: u32, slot: Slot)
    requires images { AddsSlot (B.state before.now).now at i slot (λ image. Unit {0}) (B.state before.now).may_leave (B.state after.now).may_leave }
    requires nowhere { (c : ℕ) → target slot ≢ Local c }
    requires led { (p : Place) → (B.state before.now).stands at p → ((c : ℕ) → target (((B.state before.now).now at).slot i) ≢ Local c) ⊎ ((level : ℕ) × ((place_below p i (((B.state before.now).now at).slot i)).kind ≡ Data level)) }
    requires in_use { (p : Place) → (B.state before.now).stands at p → (p.kind ≡ Dir 0) ⊎ (p.kind ≡ Root) → SameUse slot (((B.state before.now).now at).slot i) }
    ensures { ShowsSame (B.state before.now).may_leave (B.state after.now).may_leave }
{}

/// Where new images show the same after one change, and after the next, they do after both.
pub fn same_joins<B: Blocks>(before: &B, between: &B, after: &B)
    requires first { ShowsSame (B.state before.now).may_leave (B.state between.now).may_leave }
    requires second { ShowsSame (B.state between.now).may_leave (B.state after.now).may_leave }
    ensures { ShowsSame (B.state before.now).may_leave (B.state after.now).may_leave }
{}

/// Where all is settled, each image is like memory's.
pub fn all_settled<B: Blocks>(on: &B)
    requires settled { AllAre (B.state on.now).now (B.state on.now).may_leave }
    ensures { ShowsSame (λ image. image ≡ (B.state on.now).now) (B.state on.now).may_leave }
{}

/// What shows the same shows no more of leaves of records.
pub fn shows_no_more<B: Blocks>(before: &B, after: &B)
    requires same { ShowsSame (B.state before.now).may_leave (B.state after.now).may_leave }
    ensures { ShowsNoMore (B.state before.now).may_leave (B.state after.now).may_leave }
{}
