//! The laws. Each function does nothing: its contract is the law, so that the law is proved with the crate.
ghost use Rattle.std.specs.Prelude.{◌≡◌, ◌≢◌, ◌⊎◌, ◌+◌, ◌*◌, ◌/◌, ◌%◌, ◌<◌, ℕ, false, true};
ghost use Rattle.fo_crash.specs.Images.{Image, Reaches, SameImage, to_block};
ghost use Rattle.fo_crash.specs.Steps.{AddsBytes, AddsNothing, AddsSlot, AllAre, HasBytes, PutsBytes, cleared};
ghost use Rattle.fo_crash.specs.Names.{IsInUse};
ghost use Rattle.fo_crash.specs.Spots.{Spot, FoundAt};
ghost use Rattle.fo_image.specs.declared.record.Record.{Record};
ghost use Rattle.fo_ports.specs.Shown.{active};
ghost use Rattle.fo_ports.specs.State.{IsDoomed};
ghost use Rattle.fo_alike.specs.Like.{IsLike, ShowsSame};
ghost use Rattle.fo_dir_put.specs.Paired.{AllStood};
ghost use Rattle.fo_dir_put.specs.Puts.{ClearsAlone, IsInPlace, IsNewEntry, IsOwnedEntries, IsUnused, PutsPair};
ghost use Rattle.fo_dir_pairs.specs.Pairs.{IsPaired, PairsStand, PairsStandIn, ShowsRecord, entries_spot};
ghost use Rattle.fo_dir_pairs.specs.Example.{both, first, later, leaf_spot};
ghost use Rattle.fo_dir_pairs.specs.Calls.{AddsPair, ClearsWaiting, HasWaited, HavePairs, IsOfNamed, IsUnlisted, IsUnseen};

use fo_image::Entry;
use fo_ports::Blocks;

/// An image that finds what another finds has the pairs of its records if the other has.
pub fn like_is_paired()
    ensures { (image other : Image) → IsLike image other → IsPaired other → IsPaired image }
{}

/// Where each new image finds what an old one finds, and memory what it found, pairs stand as they did.
pub fn stands_alike<B: Blocks>(before: &B, after: &B)
    requires images { ShowsSame (B.state before.now).may_leave (B.state after.now).may_leave }
    requires now { (B.state before.now).tells → IsLike (B.state after.now).now (B.state before.now).now }
    requires stand { PairsStand (B.state before.now) }
    ensures { PairsStand (B.state after.now) }
{}

/// Where every image is what memory has, pairs stand exactly if memory's records have theirs.
pub fn settled_pairs<B: Blocks>(on: &B)
    ensures all { AllAre (B.state on.now).now (B.state on.now).may_leave → IsPaired (B.state on.now).now → PairsStand (B.state on.now) }
    ensures memory { (B.state on.now).tells → PairsStand (B.state on.now) → IsPaired (B.state on.now).now }
{
    let _ = on;
}

/// Where pairs stand, no image shows a record with a pair that is free in memory, in a leaf of a directory whose first entry memory has in use.
pub fn unused_pairs<B: Blocks>(on: &B, entries: u32, p: u32)
    requires named { (B.state on.now).tells → IsOfNamed (B.state on.now) entries }
    requires unused { (g : ℕ) → IsInUse (((B.state on.now).now entries).slot (2 * p)) g → ⊥ }
    requires stand { PairsStand (B.state on.now) }
    ensures { (image : Image) (x : Spot) (r : Record) → (B.state on.now).may_leave image → ShowsRecord image x r → FoundAt active (B.state on.now).now entries (entries_spot x (r.slot / 102)) → r.slot % 102 ≢ p }
{}

/// Where no image was added, and all is settled, pairs stand as they did.
pub fn settling_keeps<B: Blocks>(before: &B, after: &B)
    requires images { AddsNothing (B.state before.now).may_leave (B.state after.now).may_leave }
    requires settled { AllAre (B.state after.now).now (B.state after.now).may_leave }
    requires stand { PairsStand (B.state before.now) }
    ensures { PairsStand (B.state after.now) }
{}

/// Where slots that waited were cleared in memory, as in a flushing turn, pairs stand as they did.
pub fn waiting_cleared<B: Blocks>(before: &B, after: &B)
    requires clears { (B.state before.now).tells → ClearsWaiting (B.state before.now) (B.state after.now) }
    requires images { AddsNothing (B.state before.now).may_leave (B.state after.now).may_leave }
    requires stand { PairsStand (B.state before.now) }
    ensures { PairsStand (B.state after.now) }
{}

/// Where no image was added, and memory is the same, pairs stand as they did.
pub fn none_added<B: Blocks>(before: &B, after: &B)
    requires images { AddsNothing (B.state before.now).may_leave (B.state after.now).may_leave }
    requires now { (B.state before.now).tells → SameImage (B.state after.now).now (B.state before.now).now }
    requires stand { PairsStand (B.state before.now) }
    ensures { PairsStand (B.state after.now) }
{}

/// Where bytes of a leaf were put of which each record stood there, pairs stand.
pub fn leaf_changed<B: Blocks>(before: &B, after: &B, leaf: u32, bytes: &[u8])
    requires images { AddsBytes (B.state before.now).now leaf bytes.now (λ image. Unit {0}) (B.state before.now).may_leave (B.state after.now).may_leave }
    requires puts { PutsBytes leaf bytes.now (B.state before.now).now (B.state after.now).now }
    requires stood { (n : ℕ) → AllStood n bytes.now (((B.state before.now).now leaf).bytes) }
    requires stand { PairsStand (B.state before.now) }
    ensures { PairsStand (B.state after.now) }
{}

/// Where bytes of a leaf were put that waited for a leaf of entries, pairs stand if each record stood there, or has its pair in memory in this
/// leaf of its directory's entries, which is in place.
pub fn record_put<B: Blocks>(before: &B, after: &B, leaf: u32, entries: u32, bytes: &[u8])
    requires images { AddsBytes (B.state before.now).now leaf bytes.now (HasWaited (B.state before.now) entries) (B.state before.now).may_leave (B.state after.now).may_leave }
    requires puts { PutsBytes leaf bytes.now (B.state before.now).now (B.state after.now).now }
    requires lower { (B.state before.now).tells → IsInPlace (B.state before.now) leaf entries }
    requires spared { (B.state before.now).tells → IsDoomed (B.state before.now) entries → ⊥ }
    requires pairs { HavePairs leaf entries bytes.now (B.state before.now) }
    requires stand { PairsStand (B.state before.now) }
    ensures { PairsStand (B.state after.now) }
{}

/// Where the entries of a free pair were put, the second before the first, pairs stand. The leaf is of a directory whose first entry memory has
/// in use; and where the pair is a directory's, no image has leaves of its records yet.
pub fn pair_put<B: Blocks>(before: &B, after: &B, entries: u32, p: u32, first: Entry, second: Entry)
    requires images { AddsPair (B.state before.now).now entries p first second (B.state before.now).may_leave (B.state after.now).may_leave }
    requires puts { PutsPair entries p first second (B.state before.now) (B.state after.now) }
    requires owned { IsOwnedEntries (B.state before.now) entries }
    requires within { p < 102 }
    requires first_unused { IsUnused (B.state before.now) entries (2 * p) }
    requires second_unused { IsUnused (B.state before.now) entries (2 * p + 1) }
    requires new { IsNewEntry first × IsNewEntry second }
    requires plain { second.dir ≡ false }
    requires named { (B.state before.now).tells → IsOfNamed (B.state before.now) entries }
    requires unseen { first.dir ≡ true → IsUnseen (B.state before.now).may_leave first.tag }
    requires stand { PairsStand (B.state before.now) }
    ensures { PairsStand (B.state after.now) }
{}

/// Where an entry was cleared, at once or to wait for a leaf of records, pairs stand if no record has the pair: in images this leaf alone, as
/// memory has it in place, and it has none in memory.
pub fn entry_cleared<B: Blocks>(before: &B, after: &B, leaf: u32, entries: u32, j: u32)
    requires images { AddsSlot (B.state before.now).now entries j (cleared (((B.state before.now).now entries).slot j)) (λ image. (image leaf).bytes ≡ ((B.state before.now).now leaf).bytes) (B.state before.now).may_leave (B.state after.now).may_leave }
    requires entry { ((((B.state after.now).now entries).slot j ≡ cleared (((B.state before.now).now entries).slot j)) × ((B.state after.now).clearing entries j → ⊥)) ⊎ ((((B.state after.now).now entries).slot j ≡ ((B.state before.now).now entries).slot j) × (B.state after.now).clearing entries j) }
    requires settled { ((B.state after.now).clearing entries j → ⊥) → HasBytes (B.state before.now).now leaf (B.state after.now).may_leave }
    requires alone { ClearsAlone entries j (B.state before.now) (B.state after.now) }
    requires owned { IsOwnedEntries (B.state before.now) entries }
    requires other { (B.state before.now).tells → entries ≢ 1 }
    requires within { j < 204 }
    requires place { (B.state before.now).tells → (B.state before.now).sealed leaf × Reaches (B.state before.now).now (to_block 1) leaf × (IsDoomed (B.state before.now) leaf → ⊥) }
    requires unlisted { IsUnlisted (B.state before.now) (j / 2) leaf entries }
    requires stand { PairsStand (B.state before.now) }
    ensures { PairsStand (B.state after.now) }
{}

/// There are images whose pairs stand, and one of them shows a record.
pub fn a_pair_stands()
    ensures stand { PairsStandIn later both }
    ensures shown { both later × ShowsRecord later leaf_spot first }
{}
