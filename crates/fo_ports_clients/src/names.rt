//! A name and its entry are put and taken out, so that each name has its entry in use in every image.
ghost use Rattle.std.specs.Prelude.{◌≡◌, ◌≢◌, ◌⊎◌, ◌+◌, ◌%◌, ◌<◌, ◌≤◌, ◌↔◌, ℕ, [], ◌∷◌, length, true, false, IsTrue};
ghost use Rattle.fo_image.specs.declared.types.Kind.TheVariants.{Data, Dir};
ghost use Rattle.fo_image.specs.declared.types.Pointer.TheVariants.{Nil};
ghost use Rattle.fo_crash.specs.declared.place.Place.{Place};
ghost use Rattle.fo_crash.specs.declared.slot.Slot.TheVariants.{Entry as Head};
ghost use Rattle.fo_crash.specs.Images.{Reaches, to_block};
ghost use Rattle.fo_crash.specs.Steps.{cleared};
ghost use Rattle.fo_crash.specs.Names.{NamesFit, InAll, IsInUse};
ghost use Rattle.fo_ports.specs.Blocks.{slot_count, SlotFits, put_at};
ghost use Rattle.fo_ports.specs.State.{IsHeld, IsRooted, MayClearLater};
ghost use Rattle.fo_ports_clients.specs.Leaf.{Lists, StandsBelow, MayAddName, AddsName};

use fo_crash::Slot;
use fo_image::Entry;
use fo_ports::Blocks;

/// Adds name `i` with its entry, which is free and names nothing yet, and is the first of its pair. The leaf of names hangs in memory,
/// and hung from block 1 when all was last settled.
pub fn add_name<B: Blocks>(
    on: &mut B,
    leaf: u32,
    entries: u32,
    i: u32,
    entry: Entry,
    generation: u8,
)
    requires fit { InAll (NamesFit Lists leaf entries) (B.state on.old).may_leave }
    requires leaf_pinned { (B.state on.old).pinned leaf }
    requires leaf_current { ((B.state on.old).label leaf).epoch ≡ (B.state on.old).high }
    requires leaf_kind { ((B.state on.old).label leaf).kind ≡ Data 0 }
    requires leaf_long { length (((B.state on.old).now leaf).bytes) ≡ 8192 }
    requires leaf_place { (B.state on.old).tells → (p : Place) → (B.state on.old).stands leaf p → (p.kind ≡ Data 0) × (p.rank % 32 ≢ 16) }
    requires entries_pinned { (B.state on.old).pinned entries }
    requires entries_current { ((B.state on.old).label entries).epoch ≡ (B.state on.old).high }
    requires entries_kind { ((B.state on.old).label entries).kind ≡ Dir 0 }
    requires lower { (B.state on.old).tells → StandsBelow (B.state on.old).stands entries leaf }
    requires uncovered { ((B.state on.old).covered leaf → ⊥) × ((B.state on.old).covered entries → ⊥) }
    requires held { (B.state on.old).tells → IsHeld (B.state on.old) entries × IsRooted (B.state on.old) leaf }
    requires sealed { (B.state on.old).tells → (B.state on.old).sealed leaf }
    requires first { i % 2 ≡ 0 }
    requires slots { i < slot_count ((B.state on.old).label entries).kind }
    requires room { 0 < (B.state on.old).room }
    requires free { (g : ℕ) → IsInUse (((B.state on.old).now entries).slot i) g → ⊥ }
    requires settled { (B.state on.old).clearing entries i → ⊥ }
    requires spelled { SlotFits ((B.state on.old).label entries).kind i (Head entry) }
    requires empty { entry.top ≡ Nil }
    requires active { entry.active ≡ true }
    requires same { entry.generation ≡ generation }
    ensures fit { InAll (NamesFit Lists leaf entries) (B.state on.new).may_leave }
    ensures name { ((B.state on.new).now leaf).bytes ≡ put_at i (generation ∷ []) (((B.state on.old).now leaf).bytes) }
    ensures entry { ((B.state on.new).now entries).slot i ≡ Head entry }
    ensures blocks { (b : ℕ) → ((B.state on.new).label b ≡ (B.state on.old).label b) × ((B.state on.old).pinned b → (B.state on.new).pinned b) }
    ensures order { (b j : ℕ) → (B.state on.new).clearing b j ↔ (B.state on.old).clearing b j }
    ensures usable { ((B.state on.new).spare ≡ (B.state on.old).spare) × ((B.state on.new).usable ≡ (B.state on.old).usable) }
    ensures place { (B.state on.old).tells → (p : Place) → (B.state on.old).stands leaf p → (B.state on.new).stands leaf p }
    ensures instead { (y x : ℕ) → (B.state on.new).instead y x → (B.state on.old).instead y x }
    ensures room { (B.state on.new).room + 1 ≡ (B.state on.old).room }
    ensures keeps { B.keeps on.old on.new }
{
    on.put_slot(entries, i, Slot::Entry(entry));
    on.wait_for(leaf, entries);
    on.put_bytes(leaf, i, &[generation]);
}

/// Adds the name with its entry where the leaf of names is known to have hung from block 1 when all was last settled; else says false,
/// and changes nothing.
pub fn add_name_if_sealed<B: Blocks>(
    on: &mut B,
    leaf: u32,
    entries: u32,
    i: u32,
    entry: Entry,
    generation: u8,
) -> bool
    requires may { MayAddName (B.state on.old) leaf entries i entry generation }
    ensures sealed { IsTrue result ↔ (B.state on.old).sealed leaf }
    ensures adds { result ≡ true → AddsName leaf entries i entry generation (B.state on.old) (B.state on.new) }
    ensures nothing { result ≡ false → on.new ≡ on.old }
    ensures keeps { B.keeps on.old on.new }
{
    if !on.sealed(leaf) {
        return false;
    }
    add_name(on, leaf, entries, i, entry, generation);
    true
}

/// Takes name `i` out. Its entry is cleared once the leaf without the name is settled. The leaf of entries hangs from block 1, as it
/// did when all was last settled, nothing is still to come in the place of another block, and no slot below the entry waits to be
/// cleared.
pub fn remove_name<B: Blocks>(on: &mut B, leaf: u32, entries: u32, i: u32)
    requires fit { InAll (NamesFit Lists leaf entries) (B.state on.old).may_leave }
    requires leaf_pinned { (B.state on.old).pinned leaf }
    requires leaf_current { ((B.state on.old).label leaf).epoch ≡ (B.state on.old).high }
    requires leaf_kind { ((B.state on.old).label leaf).kind ≡ Data 0 }
    requires leaf_long { length (((B.state on.old).now leaf).bytes) ≡ 8192 }
    requires leaf_place { (B.state on.old).tells → (p : Place) → (B.state on.old).stands leaf p → (p.kind ≡ Data 0) × (p.rank % 32 ≢ 16) }
    requires entries_pinned { (B.state on.old).pinned entries }
    requires entries_current { ((B.state on.old).label entries).epoch ≡ (B.state on.old).high }
    requires entries_kind { ((B.state on.old).label entries).kind ≡ Dir 0 }
    requires entries_sealed { (B.state on.old).tells → (B.state on.old).sealed entries }
    requires waits { (B.state on.old).tells → MayClearLater (B.state on.old) entries i }
    requires reached { (B.state on.old).tells → Reaches (B.state on.old).now (to_block 1) entries }
    requires uncovered { (B.state on.old).tells → (B.state on.old).covered entries → ⊥ }
    requires linked { (B.state on.old).tells → (y x : ℕ) → (B.state on.old).instead y x → ⊥ }
    requires quiet { (B.state on.old).tells → (b j : ℕ) → (B.state on.old).clearing b j → Reaches (B.state on.old).now (((B.state on.old).now entries).slot i) b → ⊥ }
    requires slots { i < slot_count ((B.state on.old).label entries).kind }
    requires room { 0 < (B.state on.old).room }
    requires settled { (B.state on.old).clearing entries i → ⊥ }
    ensures fit { InAll (NamesFit Lists leaf entries) (B.state on.new).may_leave }
    ensures name { ((B.state on.new).now leaf).bytes ≡ put_at i (0 ∷ []) (((B.state on.old).now leaf).bytes) }
    ensures entry { (((B.state on.new).now entries).slot i ≡ cleared (((B.state on.old).now entries).slot i)) ⊎ (B.state on.new).clearing entries i }
    ensures order { (b j : ℕ) → ((B.state on.new).clearing b j → (B.state on.old).clearing b j ⊎ ((b ≡ entries) × (j ≡ i))) × ((B.state on.old).clearing b j → (B.state on.new).clearing b j) }
    ensures usable { ((B.state on.new).spare ≡ (B.state on.old).spare) × ((B.state on.new).usable ≡ (B.state on.old).usable) }
    ensures blocks { (b : ℕ) → ((B.state on.new).label b ≡ (B.state on.old).label b) × ((B.state on.old).pinned b → (B.state on.new).pinned b) }
    ensures instead { (y x : ℕ) → (B.state on.new).instead y x → (B.state on.old).instead y x }
    ensures room { (B.state on.new).room + 1 ≡ (B.state on.old).room }
    ensures keeps { B.keeps on.old on.new }
{
    on.put_bytes(leaf, i, &[0]);
    on.remove_slot(entries, i, Some(leaf));
}
