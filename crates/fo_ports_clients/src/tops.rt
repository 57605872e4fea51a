//! A new top is raised over a source.
ghost use Rattle.std.specs.Prelude.{◌≡◌, ◌≢◌, ◌⊎◌, ◌+◌, ◌*◌, ◌^◌, ◌<◌, ◌≤◌, ℕ};
ghost use Rattle.fo_image.specs.declared.types.Kind.TheVariants.{Dir};
ghost use Rattle.fo_image.specs.declared.types.State.TheVariants.{Live};
ghost use Rattle.fo_image.specs.declared.types.Pointer.TheVariants.{Nil, Local};
ghost use Rattle.fo_image.specs.Format.{IsDepth};
ghost use Rattle.fo_crash.specs.Images.{depth_of, target, to_block, Reaches};
ghost use Rattle.fo_crash.specs.Places.{place_below};
ghost use Rattle.fo_crash.specs.Steps.{IsSure};
ghost use Rattle.fo_ports_clients.specs.Top.{raised, top_label, RaisesTop, PutsOne};

use fo_crash::{Place, Slot};
use fo_image::{Entry, Pointer};
use fo_ports::Blocks;

/// The entry of a source with one level more, of this size.
fn raised(slot: Slot, size: u64, to: u32) -> Slot
    requires { depth_of slot < 4 }
    ensures { result ≡ raised slot size to }
{
    match slot {
        Slot::Pointer(pointer) => Slot::Pointer(pointer),
        Slot::Entry(entry) => Slot::Entry(Entry {
            depth: entry.depth + 1,
            size,
            top: Pointer::Local(to),
            ..entry
        }),
        Slot::Prev(epoch, at) => Slot::Prev(epoch, at),
    }
}

/// Raises a new top over the source of entry `i` of a leaf of entries, which is to have this size from now on, and so one level more.
/// The top that hangs there is of the current epoch; it comes to hang from slot 0 of the new one. Gives the address of the new top.
pub fn raise_top<B: Blocks>(on: &mut B, at: u32, place: Place, i: u32, below: u32, size: u64) -> u32
    requires spare { 0 < (B.state on.old).spare }
    requires pinned { (B.state on.old).pinned at }
    requires current { ((B.state on.old).label at).epoch ≡ (B.state on.old).high }
    requires live { ((B.state on.old).label at).state ≡ Live }
    requires entries { ((B.state on.old).label at).kind ≡ Dir 0 }
    requires place { (place.kind ≡ Dir 0) × (32 ≤ place.rank) × (place.rank < 2 ^ 31) × (409 * place.index + i < 2 ^ 64) }
    requires stands { (B.state on.old).tells → (B.state on.old).stands at place }
    requires reached { (B.state on.old).tells → Reaches (B.state on.old).now (to_block 1) at }
    requires slots { i < 204 }
    requires settled { (B.state on.old).clearing at i → ⊥ }
    requires leads { target (((B.state on.old).now at).slot i) ≡ Local below }
    requires below_live { ((B.state on.old).label below).state ≡ Live }
    requires below_current { ((B.state on.old).label below).epoch ≡ (B.state on.old).high }
    requires depth { (depth_of (((B.state on.old).now at).slot i) < 4) × IsDepth size (depth_of (((B.state on.old).now at).slot i) + 1) }
    ensures raises { RaisesTop at i below size result (B.state on.old).now (B.state on.new).now }

    // An image is one of before but for the new top, and may have the new entry; and every image has the new top as it is.
    ensures images { PutsOne at i (raised (((B.state on.old).now at).slot i) size result) result (B.state on.old).may_leave (B.state on.new).may_leave }
    ensures sure { IsSure (B.state on.new).now result (B.state on.new).may_leave }

    ensures label { (((B.state on.old).label result).state ≢ Live) × (B.state on.new).pinned result × ((B.state on.new).label result ≡ top_label place i (raised (((B.state on.old).now at).slot i) size result) (B.state on.old).high) }
    ensures others { (b : ℕ) → b ≢ result → ((B.state on.new).label b ≡ (B.state on.old).label b) × ((B.state on.old).pinned b → (B.state on.new).pinned b) }
    ensures place { (B.state on.old).tells → (B.state on.new).stands result (place_below place i (raised (((B.state on.old).now at).slot i) size result)) }
    ensures instead { (y x : ℕ) → (B.state on.new).instead y x → (B.state on.old).instead y x }
    ensures order { (b j : ℕ) → ((B.state on.new).clearing b j → (b ≢ result) × (B.state on.old).clearing b j) × (b ≢ result → (B.state on.old).clearing b j → (B.state on.new).clearing b j) }
    ensures spare { ((B.state on.new).spare + 1 ≡ (B.state on.old).spare) × ((B.state on.new).room ≡ (B.state on.old).room) × ((B.state on.new).usable + 1 ≡ (B.state on.old).usable) }
    ensures keeps { B.keeps on.old on.new }
{
    let slot = on.slot(at, i);
    let wanted = place.below(i, &raised(slot, size, below));
    let top = on.new_block(wanted.kind, wanted.tag, wanted.rank);
    on.put_slot(top, 0, Slot::Pointer(Pointer::Local(below)));
    on.put_slot(at, i, raised(slot, size, top));
    top
}
