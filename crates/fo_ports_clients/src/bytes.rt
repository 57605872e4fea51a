//! One byte of a leaf is written with copy on write up to the root block.
ghost use Rattle.std.specs.Prelude.{◌≡◌, ◌≢◌, ◌⊎◌, ◌+◌, ◌%◌, ◌<◌, ◌≤◌, ℕ, [], ◌∷◌, length};
ghost use Rattle.fo_image.specs.declared.types.Kind.TheVariants.{Data};
ghost use Rattle.fo_image.specs.declared.types.State.TheVariants.{Live};
ghost use Rattle.fo_image.specs.declared.types.Pointer.TheVariants.{Local};
ghost use Rattle.fo_crash.specs.declared.place.Place.{Place};
ghost use Rattle.fo_crash.specs.Images.{target, note, to_block, Reaches, SameContent};
ghost use Rattle.fo_crash.specs.Shows.{Everywhere};
ghost use Rattle.fo_ports.specs.Blocks.{slot_count, put_at};
ghost use Rattle.fo_ports.specs.State.{IsRooted};
ghost use Rattle.fo_ports_clients.specs.Own.{led, HasOneWay, MovesOne, IsOtherLeaf, KeepsAll};

use fo_crash::Slot;
use fo_image::{Entry, Pointer};
use fo_ports::Blocks;

/// The slot with another target.
fn led(slot: Slot, to: u32) -> Slot
    ensures { result ≡ led slot to }
{
    match slot {
        Slot::Pointer(_) => Slot::Pointer(Pointer::Local(to)),
        Slot::Entry(entry) => Slot::Entry(Entry {
            top: Pointer::Local(to),
            ..entry
        }),
        Slot::Prev(epoch, at) => Slot::Prev(epoch, at),
    }
}

/// Copies the older block below a slot, and leads the slot to the copy.
fn own_below<B: Blocks>(on: &mut B, at: u32, i: u32, below: u32) -> u32
    requires at_pinned { (B.state on.old).pinned at }
    requires at_apart { at ≢ 1 }
    requires at_live { ((B.state on.old).label at).state ≡ Live }
    requires current { ((B.state on.old).label at).epoch ≡ (B.state on.old).high }
    requires reached { (B.state on.old).tells → Reaches (B.state on.old).now (to_block 1) at }
    requires slots { i < slot_count ((B.state on.old).label at).kind }
    requires settled { (B.state on.old).clearing at i → ⊥ }
    requires spare { 0 < (B.state on.old).spare }
    requires leads { target (((B.state on.old).now at).slot i) ≡ Local below }
    requires below_pinned { (B.state on.old).pinned below }
    requires below_live { ((B.state on.old).label below).state ≡ Live }
    requires below_apart { below ≢ 1 }
    requires older { ((B.state on.old).label below).epoch < (B.state on.old).high }
    requires linked { (B.state on.old).tells → (y x : ℕ) → (B.state on.old).instead y x → ⊥ }

    // Every image shows what one of before shows.
    ensures shows { (B.state on.old).tells → KeepsAll Everywhere (B.state on.old).may_leave (B.state on.new).may_leave }

    ensures one_way { HasOneWay at i result (B.state on.new).may_leave }
    ensures moves { MovesOne at i result (B.state on.old).may_leave (B.state on.new).may_leave }
    ensures here { target (((B.state on.new).now at).slot i) ≡ Local result }
    ensures copied { SameContent ((B.state on.new).now result) ((B.state on.old).now below) }
    ensures slots { (b j : ℕ) → b ≢ result → (b ≢ at) ⊎ (j ≢ i) → ((B.state on.new).now b).slot j ≡ ((B.state on.old).now b).slot j }
    ensures bytes { (b : ℕ) → b ≢ result → ((B.state on.new).now b).bytes ≡ ((B.state on.old).now b).bytes }
    ensures fresh { (result ≢ 1) × (((B.state on.old).label result).state ≢ Live) }
    ensures label { (((B.state on.new).label result).state ≡ Live) × (((B.state on.new).label result).kind ≡ ((B.state on.old).label below).kind) × (((B.state on.new).label result).epoch ≡ (B.state on.new).high) }
    ensures others { (b : ℕ) → b ≢ result → ((B.state on.new).label b ≡ (B.state on.old).label b) × ((B.state on.old).pinned b → (B.state on.new).pinned b) }
    ensures pinned { (B.state on.new).pinned result }
    ensures block { (B.state on.new).is_block result }
    ensures order { (b j : ℕ) → (B.state on.new).clearing b j → (b ≢ result) × (B.state on.old).clearing b j }
    ensures goes_on { (b j : ℕ) → b ≢ result → (B.state on.old).clearing b j → (B.state on.new).clearing b j }
    ensures place { (B.state on.old).tells → (p : Place) → (B.state on.old).stands below p → (B.state on.new).stands result p }
    ensures places { (B.state on.old).tells → (b : ℕ) (p : Place) → b ≢ result → (B.state on.old).stands b p → ((B.state on.new).covered b → ⊥) → IsRooted (B.state on.new) b → (B.state on.new).stands b p }
    ensures linked { (B.state on.new).tells → (y x : ℕ) → (B.state on.new).instead y x → ⊥ }
    ensures spare { ((B.state on.new).spare + 1 ≡ (B.state on.old).spare) × ((B.state on.new).usable + 1 ≡ (B.state on.old).usable) }
    ensures keeps { B.keeps on.old on.new }
{
    let slot = on.slot(at, i);
    let copy = on.copy(below);
    on.put_slot(at, i, led(slot, copy));
    copy
}

/// Writes a byte of leaf `k` of the source of one level of pointers that is the first of the active root block. The leaf and the
/// block of pointers are older than the epoch, and are copied. Nothing was made before that is still to come in the place of another
/// block.
pub fn write_byte<B: Blocks>(on: &mut B, top: u32, k: u32, leaf: u32, from: u32, byte: u8) -> u32
    requires spare { 2 ≤ (B.state on.old).spare }
    requires root_pinned { (B.state on.old).pinned (B.state on.old).root }
    requires root_live { ((B.state on.old).label (B.state on.old).root).state ≡ Live }
    requires root_slots { 0 < slot_count ((B.state on.old).label (B.state on.old).root).kind }
    requires current { ((B.state on.old).label (B.state on.old).root).epoch ≡ (B.state on.old).high }
    requires settled { (b j : ℕ) → (B.state on.old).clearing b j → ⊥ }
    requires apart { ((B.state on.old).root ≢ 1) × (top ≢ 1) × (leaf ≢ 1) }
    requires top_leads { target (((B.state on.old).now (B.state on.old).root).slot 0) ≡ Local top }
    requires top_pinned { (B.state on.old).pinned top }
    requires top_live { ((B.state on.old).label top).state ≡ Live }
    requires top_older { ((B.state on.old).label top).epoch < (B.state on.old).high }
    requires slots { k < slot_count ((B.state on.old).label top).kind }
    requires leaf_leads { target (((B.state on.old).now top).slot k) ≡ Local leaf }
    requires leaf_pinned { (B.state on.old).pinned leaf }
    requires leaf_live { ((B.state on.old).label leaf).state ≡ Live }
    requires leaf_older { ((B.state on.old).label leaf).epoch < (B.state on.old).high }
    requires leaf_kind { ((B.state on.old).label leaf).kind ≡ Data 0 }
    requires leaf_long { length (((B.state on.old).now leaf).bytes) ≡ 8192 }
    requires leaf_place { (B.state on.old).tells → (p : Place) → (B.state on.old).stands leaf p → p.rank % 32 ≢ 16 }
    requires within { from < 8192 }
    requires linked { (B.state on.old).tells → (y x : ℕ) → (B.state on.old).instead y x → ⊥ }

    // Every image shows the other leaves as one of before does.
    ensures others { (B.state on.old).tells → KeepsAll (IsOtherLeaf k) (B.state on.old).may_leave (B.state on.new).may_leave }

    ensures leads { (above : ℕ) × (target (((B.state on.new).now (B.state on.new).root).slot 0) ≡ Local above) × (target (((B.state on.new).now above).slot k) ≡ Local result) }
    ensures linked { (B.state on.new).tells → (y x : ℕ) → (B.state on.new).instead y x → ⊥ }
    ensures block { (B.state on.new).is_block result × (B.state on.new).pinned result }
    ensures settled { (b j : ℕ) → (B.state on.new).clearing b j → ⊥ }
    ensures spare { ((B.state on.new).spare + 2 ≡ (B.state on.old).spare) × ((B.state on.new).usable + 2 ≡ (B.state on.old).usable) }
    ensures written { ((B.state on.new).now result).bytes ≡ put_at from (byte ∷ []) (((B.state on.old).now leaf).bytes) }
    ensures keeps { B.keeps on.old on.new }
{
    let root = on.root();
    let own_top = own_below(on, root, 0, top);
    let own_leaf = own_below(on, own_top, k, leaf);
    on.put_bytes(own_leaf, from, &[byte]);
    own_leaf
}
