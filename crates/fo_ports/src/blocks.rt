//! The calls on blocks.
ghost use Rattle.std.specs.Prelude.{◌≡◌, ◌≢◌, ◌⊎◌, ◌↔◌, ◌+◌, ◌-◌, ◌*◌, ◌%◌, ◌^◌, ◌<◌, ◌≤◌, ℕ, Bool, List, length, IfOk, IfErr, OnOk, OnErr, IsOk, Option, Some, None, IfSome, MatchOption, IsTrue, false};
ghost use Rattle.fo_base.specs.Cause.{Rose};
ghost use Rattle.fo_meta.specs.of_image.declared.types.State.TheVariants.{Live};
ghost use Rattle.fo_meta.specs.of_image.declared.types.Kind.TheVariants.{Dir, Root};
ghost use Rattle.fo_meta.specs.of_image.declared.types.Pointer.TheVariants.{Local};
ghost use Rattle.fo_meta.specs.of_image.Usable.{is_usable};
ghost use Rattle.fo_crash.specs.declared.place.Place.{Place};
ghost use Rattle.fo_crash.specs.Images.{Content, Image, to_block, target, walk, SameContent, SameImage, Reaches};
ghost use Rattle.fo_crash.specs.Steps.{AddsSlot, AddsBytes, AddsNothing, AddsSuper, AllAre, IsSure, HasSuper, HasBytes, Covers, Passes, PutsSlot, PutsBytes, IsOneOf, Through, cleared};
ghost use Rattle.fo_crash.specs.Names.{SameUse};
ghost use Rattle.fo_crash.specs.Places.{place, super_place, root_place, IsPlaced, OnePlace, RanksFall};
ghost use Rattle.fo_crash.specs.Spots.{FewSlots, OneSpot};
ghost use Rattle.fo_ports.specs.Blocks.{slot_count, IsLevel, IsFormed, IsRanked, blank, SlotFits, Reads, ReadsSlots, MayPut, put_at, zeros, dropped, ends, cost, OnChain};
ghost use Rattle.fo_ports.specs.State.{State, KeepsAll, none, Stays, KeepsOrder, KeepsCovered, Uses, KeepsNumbers, Frame, Calm, Gives, Looks, Numbers, Rests, StaysKnown, IsUnlinked, QueuesOne, MayPutSlot, MayRemoveSlot, Hangs, IsDoomed, IsPointers, IsPairUsed, MayClearLater, AddsNoWait, AddsNoRemoval, AddsRemovals, WaitsForPairs, WaitsInUse};
ghost use Rattle.fo_ports.specs.Causes.{Caused, IsFull};

use crate::error::BlockError;
use fo_crash::Slot;
use fo_meta::{Kind, Label, Score};

/// The blocks of a device below a cache that may write them in any order.
///
/// Its meaning is what memory has of each block, and the set of images that a crash may leave, now or after whatever is flushed
/// later. Each call says what it does to memory, and by which one cell the set of images grows. Calls that are refused add no image
/// but those that the call adds where it is granted. Over a device that tells nothing there are no images, and what is said of them
/// says nothing.
///
/// A request first reserves what it needs, then gets, and so pins, the blocks that it reads, and then changes memory by calls that
/// refuse nothing. What it only scans it gets last, since each `get` pins while pins are left.
pub trait Blocks {
    /// All that is said of blocks.
    ghost state: { Self → State };

    /// What every call keeps, also of what the implementer borrows.
    ghost keeps: { Self → Self → Type 0 };

    /// How a settling calls the device: the implementer's own.
    ghost settles: { Self → Self → Type 0 };

    /// Copies a block of this kind and rank, as it was last put, and pins it while pins are left. A pinned block is had again without
    /// fail, where what memory has of it is of the format that the rank asks for. A block that has a label of another kind, or whose
    /// bytes are not of the format, is damaged; over a device that tells what it holds, no block that stands at a place is.
    fn get(&mut self, at: u32, kind: Kind, rank: u32, into: &mut [u8]) -> Result<(), BlockError>
        requires block { (state self.old).is_block at }
        requires length { length into.old ≡ 8192 }
        requires place { (state self.old).tells → (p : Place) → (state self.old).stands at p → (p.kind ≡ kind) × (p.rank ≡ rank) }
        ensures bytes { OnOk result (Reads kind ((state self.new).now at) into.new × ReadsSlots kind ((state self.new).now at) into.new) }
        ensures formed { OnOk result (IsFormed kind rank into.new × (((state self.old).label at).kind ≡ kind)) }
        ensures names { OnOk result ((i below : ℕ) → i < slot_count kind → target (((state self.new).now at).slot i) ≡ Local below → (state self.new).is_block below) }
        ensures nothing { OnErr result (into.new ≡ into.old) }
        ensures pinned { OnOk result (0 < (state self.old).pins_left → (state self.new).pinned at) }
        ensures again { (state self.old).pinned at → ((state self.old).label at).kind ≡ kind → IsRanked kind rank (((state self.old).now at).bytes) → IsOk result }
        ensures no_pin { (state self.old).pinned at → ((state self.old).label at).kind ≡ kind → (state self.new).pins_left ≡ (state self.old).pins_left }
        ensures pins { (state self.old).pins_left ≤ (state self.new).pins_left + 1 }
        ensures looks { Looks (state self.old) (state self.new) }
        ensures cause { IfErr result (Caused ⊥ (λ b. (b ≡ at) × ((state self.old).tells → (p : Place) → (state self.old).stands at p → ⊥)) (Rose (state self.old).faults (state self.new).faults) ⊥) }
        ensures keeps { keeps self.old self.new };

    /// Brings a block of this kind into memory and pins it while pins are left, as `get` does, and copies nothing: `lend` lends it then.
    fn pin(&mut self, at: u32, kind: Kind, rank: u32) -> Result<(), BlockError>
        requires block { (state self.old).is_block at }
        requires place { (state self.old).tells → (p : Place) → (state self.old).stands at p → (p.kind ≡ kind) × (p.rank ≡ rank) }
        ensures kind { OnOk result (((state self.old).label at).kind ≡ kind) }
        ensures pinned { OnOk result (0 < (state self.old).pins_left → (state self.new).pinned at) }
        ensures again { (state self.old).pinned at → ((state self.old).label at).kind ≡ kind → IsOk result }
        ensures no_pin { (state self.old).pinned at → ((state self.old).label at).kind ≡ kind → (state self.new).pins_left ≡ (state self.old).pins_left }
        ensures pins { (state self.old).pins_left ≤ (state self.new).pins_left + 1 }
        ensures looks { Looks (state self.old) (state self.new) }
        ensures cause { IfErr result (Caused ⊥ (λ b. (b ≡ at) × ((state self.old).tells → (p : Place) → (state self.old).stands at p → ⊥)) (Rose (state self.old).faults (state self.new).faults) ⊥) }
        ensures keeps { keeps self.old self.new };

    /// Lends the bytes of a block of this kind and rank, as it was last put, where they are at hand. None tells nothing: who needs the
    /// block gets it.
    fn lend(&self, at: u32, kind: Kind, rank: u32) -> Option<&[u8]>
        requires block { (state self.now).is_block at }
        ensures bytes { IfSome result (λ b. (length b.now ≡ 8192) × Reads kind ((state self.now).now at) b.now × ReadsSlots kind ((state self.now).now at) b.now) }
        ensures formed { IfSome result (λ b. IsFormed kind rank b.now × (((state self.now).label at).kind ≡ kind)) }
        ensures names { IfSome result (λ b. (i below : ℕ) → i < slot_count kind → target (((state self.now).now at).slot i) ≡ Local below → (state self.now).is_block below) };

    /// A slot of a pinned block.
    fn slot(&self, at: u32, i: u32) -> Slot
        requires pinned { (state self.now).pinned at }
        requires slots { i < slot_count ((state self.now).label at).kind }
        ensures { result ≡ ((state self.now).now at).slot i };

    fn label(&self, at: u32) -> Label
        requires { (state self.now).is_block at }
        ensures { result ≡ (state self.now).label at };

    fn high(&self) -> u32
        ensures { result ≡ (state self.now).high };

    fn root(&self) -> u32
        ensures { result ≡ (state self.now).root };

    /// Whether this slot waits to be cleared.
    fn is_clearing(&self, at: u32, i: u32) -> bool
        ensures { IsTrue result ↔ (state self.now).clearing at i };

    /// The next file number, which is below the limit that every image has; None where it would be 2^30. It stays granted until it
    /// is taken. No slot is cleared, and no wait ends.
    fn number(&mut self) -> Result<Option<u32>, BlockError>
        ensures next { IfOk result (λ n. MatchOption n (2 ^ 30 ≤ (state self.old).next) (λ q. (q ≡ (state self.old).next) × (q < 2 ^ 30) × (state self.new).grants)) }
        ensures now { (b : ℕ) → b ≢ 1 → SameContent ((state self.new).now b) ((state self.old).now b) }
        ensures way { (i : ℕ) → ((state self.new).now 1).slot i ≡ ((state self.old).now 1).slot i }
        ensures images { AddsSuper (state self.old).now (λ image. ((i : ℕ) → (image 1).slot i ≡ ((state self.old).now 1).slot i) × ((state self.old).limit ((state self.old).now 1) ≤ (state self.new).limit (image 1))) (state self.old).may_leave (state self.new).may_leave }
        ensures passes { Passes (state self.old).tops (λ image. (state self.old).may_leave image ⊎ (state self.new).may_leave image) (state self.old).moments (state self.new).moments (state self.old).left (state self.new).left }
        ensures stays { Numbers (state self.old) (state self.new) }
        ensures cause { IfErr result (Caused ⊥ (λ b. ⊥) (Rose (state self.old).faults (state self.new).faults) ⊥) }
        ensures keeps { keeps self.old self.new };

    /// Takes the file number that was granted.
    fn number_taken(&mut self)
        requires granted { (state self.old).grants }
        ensures next { (state self.new).next ≡ (state self.old).next + 1 }
        ensures now { SameImage (state self.new).now (state self.old).now }
        ensures images { AddsNothing (state self.old).may_leave (state self.new).may_leave }
        ensures stays { Stays none none (state self.old) (state self.new) × Uses 0 0 (state self.old) (state self.new) }
        ensures order { KeepsOrder none (state self.old) (state self.new) × KeepsCovered (state self.old) (state self.new) }
        ensures no_wait { AddsNoWait none (state self.old) (state self.new) }
        ensures queued { (state self.new).queued ≡ (state self.old).queued }
        ensures no_removal { AddsNoRemoval (state self.old) (state self.new) }
        ensures dirty { (b : ℕ) → (state self.new).dirty b → (state self.old).dirty b }
        ensures keeps { keeps self.old self.new };

    /// Gives out a block of zeros, for a place of this kind, tag and rank. Its index is fixed when it is put into a slot.
    fn new_block(&mut self, kind: Kind, tag: u32, rank: u32) -> u32
        requires spare { 0 < (state self.old).spare }
        requires level { IsLevel kind }
        ensures gives { Gives result (blank kind) (record { state = Live; kind = kind; tag = tag; epoch = (state self.old).high; closing = 2 ^ 32 - 1 }) (state self.old) (state self.new) }
        ensures place { (state self.old).tells → (state self.new).stands result (place kind tag 0 rank) }
        ensures instead { (x : ℕ) → (state self.new).instead result x → ⊥ }
        ensures keeps { keeps self.old self.new };

    /// Gives out a copy of an older block, which is to come in its place.
    fn copy(&mut self, at: u32) -> u32
        requires spare { 0 < (state self.old).spare }
        requires pinned { (state self.old).pinned at }
        requires older { ((state self.old).label at).epoch < (state self.old).high }
        requires in_tree { (state self.old).tells → Reaches (state self.old).now (to_block 1) at }
        ensures gives { Gives result ((state self.old).now at) (record ((state self.old).label at) { state = Live; epoch = (state self.old).high; closing = 2 ^ 32 - 1 }) (state self.old) (state self.new) }
        ensures place { (state self.old).tells → (p : Place) → (state self.old).stands at p → (state self.new).stands result p }
        ensures instead { (x : ℕ) → (state self.new).instead result x ↔ (x ≡ at) }
        ensures keeps { keeps self.old self.new };

    /// Puts bytes into a block, none of which spells a slot. An image with them has each entry for which the block waits in the use
    /// that memory has.
    fn put_bytes(&mut self, at: u32, from: u32, bytes: &[u8])
        requires pinned { (state self.old).pinned at }
        requires current { ((state self.old).label at).epoch ≡ (state self.old).high }
        requires within { from + length bytes.now ≤ length (((state self.old).now at).bytes) }
        requires place { MayPut ((state self.old).label at).kind from (from + length bytes.now) }
        requires formed { (state self.old).tells → (p : Place) → (state self.old).stands at p → IsFormed p.kind p.rank (put_at from bytes.now (((state self.old).now at).bytes)) }
        ensures now { PutsBytes at (put_at from bytes.now (((state self.old).now at).bytes)) (state self.old).now (state self.new).now }
        ensures images { AddsBytes (state self.old).now at (put_at from bytes.now (((state self.old).now at).bytes)) (λ image. (on j : ℕ) → (state self.old).waits at on j → ((state self.old).clearing on j → ⊥) → SameUse ((image on).slot j) (((state self.old).now on).slot j)) (state self.old).may_leave (state self.new).may_leave }
        ensures calm { Calm (λ b. b ≡ at) 0 (state self.old) (state self.new) }
        ensures no_wait { AddsNoWait none (state self.old) (state self.new) }
        ensures keeps { keeps self.old self.new };

    /// Puts a slot. What it takes out of the tree that memory has is queued to be closed. Put into a block that is not newborn, what the
    /// slot leads to is newborn no more, nor is what hangs from that by newborn blocks.
    fn put_slot(&mut self, at: u32, i: u32, slot: Slot)
        requires pinned { (state self.old).pinned at }
        requires current { ((state self.old).label at).epoch ≡ (state self.old).high }
        requires spelled { (i < slot_count ((state self.old).label at).kind) × SlotFits ((state self.old).label at).kind i slot }
        requires settled { (state self.old).clearing at i → ⊥ }
        requires same_use { (a : ℕ) → (state self.old).waits a at i → SameUse slot (((state self.old).now at).slot i) }
        requires leads { (b : ℕ) → target slot ≡ Local b → (state self.old).is_block b × (b ≢ at) }
        requires may { (state self.old).tells → MayPutSlot (state self.old) at i slot }
        requires room { cost (((state self.old).now at).slot i) slot ≤ (state self.old).room }
        requires tops { (n x : ℕ) → n < dropped (((state self.old).now at).slot i) slot → target (walk (state self.old).now (((state self.old).now at).slot i) (zeros n)) ≡ Local x → (state self.old).pinned x }
        ensures now { PutsSlot at i slot (state self.old).now (state self.new).now }
        ensures images { AddsSlot (state self.old).now at i slot (λ image. Unit {0}) (state self.old).may_leave (state self.new).may_leave }
        ensures frame { Frame (λ b. b ≡ at) (λ b. (b ≡ at) ⊎ (target slot ≡ Local b)) (cost (((state self.old).now at).slot i) slot) (state self.old) (state self.new) }
        ensures hangs { Hangs at i slot (state self.old) (state self.new) }
        ensures order { KeepsOrder none (state self.old) (state self.new) }
        ensures no_wait { AddsNoWait none (state self.old) (state self.new) }
        ensures queues { ((state self.old).queued ≤ (state self.new).queued) × (ends (target (((state self.old).now at).slot i)) (target slot) ≡ 1 → QueuesOne (state self.old) (state self.new)) }
        ensures removals { AddsRemovals (((state self.old).now at).slot i) (state self.old) (state self.new) }
        ensures links { ((state self.old).newborn at → ⊥) → (b : ℕ) → Through (state self.old).newborn (state self.old).now slot b → (state self.new).newborn b → ⊥ }
        ensures covers { (state self.old).tells → Covers (IsPointers (state self.old)) (((state self.old).now at).slot i) (state self.old).now (state self.new).now (state self.old).covered (state self.new).covered }
        ensures keeps { keeps self.old self.new };

    /// Clears a slot: at once, or, of a leaf of entries, when block `after` is settled with what it has now or later; it waits wherever
    /// that block is dirty, and linked. An image with the cleared slot has that block's bytes as they are now. What the slot named is
    /// queued to be closed.
    fn remove_slot(&mut self, at: u32, i: u32, after: Option<u32>)
        requires pinned { (state self.old).pinned at }
        requires current { ((state self.old).label at).epoch ≡ (state self.old).high }
        requires slots { i < slot_count ((state self.old).label at).kind }
        requires room { 0 < (state self.old).room }
        requires settled { (state self.old).clearing at i → ⊥ }
        requires after { IfSome after (λ leaf. (((state self.old).label at).kind ≡ Dir 0) × (state self.old).pinned leaf × (((state self.old).label leaf).epoch ≡ (state self.old).high)) }
        requires may { (state self.old).tells → MayRemoveSlot (state self.old) at i × ((after ≡ None) ⊎ ((state self.old).sealed at × MayClearLater (state self.old) at i)) }
        ensures now { (PutsSlot at i (cleared (((state self.old).now at).slot i)) (state self.old).now (state self.new).now × ((state self.new).clearing at i → ⊥) × IfSome after (λ leaf. HasBytes (state self.old).now leaf (state self.new).may_leave)) ⊎ (SameImage (state self.new).now (state self.old).now × (state self.new).clearing at i × (after ≢ None)) }
        ensures images { AddsSlot (state self.old).now at i (cleared (((state self.old).now at).slot i)) (λ image. IfSome after (λ leaf. (image leaf).bytes ≡ ((state self.old).now leaf).bytes)) (state self.old).may_leave (state self.new).may_leave }
        ensures frame { Frame (λ b. b ≡ at) (λ b. b ≡ at) 1 (state self.old) (state self.new) }
        ensures hangs { Hangs at i (cleared (((state self.old).now at).slot i)) (state self.old) (state self.new) }
        ensures order { (b j : ℕ) → ((state self.new).clearing b j → (state self.old).clearing b j ⊎ ((b ≡ at) × (j ≡ i))) × ((state self.old).clearing b j → (state self.new).clearing b j) }
        ensures no_wait { AddsNoWait none (state self.old) (state self.new) }
        ensures later { IfSome after (λ leaf. (state self.old).dirty leaf → ((state self.old).newborn leaf → ⊥) → (state self.new).clearing at i) }
        ensures queues { ((state self.old).queued ≤ (state self.new).queued) × ((c : ℕ) → target (((state self.old).now at).slot i) ≡ Local c → (state self.new).clearing at i ⊎ QueuesOne (state self.old) (state self.new)) }
        ensures removals { AddsRemovals (((state self.old).now at).slot i) (state self.old) (state self.new) }
        ensures covers { (state self.old).tells → Covers (IsPointers (state self.old)) (((state self.old).now at).slot i) (state self.old).now (state self.new).now (state self.old).covered (state self.new).covered }
        ensures keeps { keeps self.old self.new };

    /// From now on an image with what is put into `at` has each pair of entries of `on` whose first is in use now in the use that it has
    /// now. The two entries of a pair take one unit of room together, as all pairs of the leaf do.
    fn wait_for(&mut self, at: u32, on: u32)
        requires pinned { (state self.old).pinned at }
        requires current { ((state self.old).label at).epoch ≡ (state self.old).high }
        requires entries { (state self.old).pinned on × (((state self.old).label on).kind ≡ Dir 0) }
        requires room { 0 < (state self.old).room }
        requires lower { (state self.old).tells → (state self.old).sealed at × ((p q : Place) → (state self.old).stands at p → (state self.old).stands on q → q.rank < p.rank) }
        ensures waits { WaitsForPairs at on (state self.old) (state self.new) × AddsNoWait (λ a. a ≡ at) (state self.old) (state self.new) }
        ensures now { SameImage (state self.new).now (state self.old).now }
        ensures images { AddsNothing (state self.old).may_leave (state self.new).may_leave }
        ensures calm { Calm none 1 (state self.old) (state self.new) }
        ensures keeps { keeps self.old self.new };

    /// Queues a root block that block 1 names no more, to be closed alone at this epoch once block 1 is settled.
    fn retire(&mut self, at: u32, epoch: u32, after: u32)
        requires after { after ≡ 1 }
        requires room { 0 < (state self.old).room }
        requires block { (state self.old).is_block at }
        requires no_top { (state self.old).tells → (state self.old).tops at → ⊥ }
        requires root { (((state self.old).label at).state ≡ Live) × (((state self.old).label at).kind ≡ Root) × ((state self.old).root ≢ at) }
        requires uncovered { (state self.old).covered at → ⊥ }
        requires epoch { ((((state self.old).label at).epoch < epoch) × (epoch ≤ (state self.old).high)) ⊎ ((epoch ≡ ((state self.old).label at).epoch) × ((state self.old).tells → OnChain (state self.old).now (state self.old).root at → ⊥)) }
        ensures now { SameImage (state self.new).now (state self.old).now }
        ensures images { AddsNothing (state self.old).may_leave (state self.new).may_leave }
        ensures frame { Frame none none 1 (state self.old) (state self.new) }
        ensures order { KeepsOrder none (state self.old) (state self.new) }
        ensures no_wait { AddsNoWait none (state self.old) (state self.new) }
        ensures queues { ((state self.old).queued ≤ (state self.new).queued) × QueuesOne (state self.old) (state self.new) }
        ensures removals { (b e : ℕ) (whole : Bool) → (state self.new).removes b e whole → (state self.old).removes b e whole ⊎ ((b ≡ at) × (e ≡ epoch) × (whole ≡ false)) }
        ensures covers { ((state self.old).tells → (state self.new).covered at) × ((b : ℕ) → ((state self.old).covered b → (state self.new).covered b) × ((state self.new).covered b → (state self.old).covered b ⊎ (b ≡ at))) }
        ensures keeps { keeps self.old self.new };

    /// Makes room for so many blocks, pinned blocks, and removals and waits, and unpins all blocks. It settles, and closes blocks,
    /// where it has to. Full where all is settled, no removal is left and fewer blocks are usable.
    fn reserve(&mut self, blocks: u32, pins: u32, removals: u32) -> Result<(), BlockError>
        requires apart { (state self.old).tells → (y x : ℕ) → (state self.old).instead y x → IsDoomed (state self.old) x → ⊥ }
        ensures room { OnOk result ((blocks ≤ (state self.new).spare) × (pins ≤ (state self.new).pins_left) × (removals ≤ (state self.new).room)) }
        ensures rests { Rests (state self.old) (state self.new) }
        ensures cause { IfErr result (Caused (IsFull (state self.new) blocks) (λ b. ⊥) (Rose (state self.old).faults (state self.new).faults) ⊥) }
        ensures keeps { keeps self.old self.new };

    /// Whether this block hung from block 1 when all was settled.
    fn sealed(&self, at: u32) -> bool
        ensures { IsTrue result ↔ (state self.now).sealed at };

    /// Whether this block is known to be in every image what it is in memory: it has one version, no change and no slot that waits.
    fn is_sure(&self, at: u32) -> bool
        ensures { IsTrue result ↔ (state self.now).sure at };

    /// Settles everything but what is newborn, and clears the slots that wait. Over a device that tells nothing what stays pinned is
    /// sealed, too. No removal is lost.
    fn settle(&mut self) -> Result<(), BlockError>
        requires apart { (state self.old).tells → (y x : ℕ) → (state self.old).instead y x → IsDoomed (state self.old) x → ⊥ }
        ensures all { OnOk result (AllAre (state self.new).now (state self.new).may_leave) }
        ensures none { OnOk result ((b j : ℕ) → (state self.new).clearing b j → ⊥) }
        ensures clean { OnOk result ((b : ℕ) → (state self.new).dirty b → (state self.new).newborn b × ((state self.new).tells → IsUnlinked (state self.new) b)) }
        ensures sealed { OnOk result ((state self.old).tells → (b : ℕ) → (IsUnlinked (state self.new) b ⊎ (state self.new).sure b) × (Reaches (state self.new).now (to_block 1) b → (state self.new).sealed b)) }
        ensures pinned { OnOk result (((state self.old).tells → ⊥) → (b : ℕ) → (state self.new).pinned b → (state self.new).newborn b ⊎ (state self.new).sealed b) }
        ensures rests { Rests (state self.old) (state self.new) }
        ensures queued { (state self.old).queued ≤ (state self.new).queued }
        ensures known { (b : ℕ) → (state self.old).pinned b → StaysKnown (state self.old) (state self.new) b }
        ensures blocks { (b : ℕ) → ((state self.new).label b ≡ (state self.old).label b) × ((state self.old).pinned b → (state self.new).pinned b) × ((state self.old).sealed b → (state self.new).sealed b) }
        ensures room { ((state self.new).spare ≡ (state self.old).spare) × ((state self.new).pins_left ≡ (state self.old).pins_left) × ((state self.new).room ≡ (state self.old).room) }
        ensures cause { IfErr result (Caused ⊥ (λ b. ⊥) (Rose (state self.old).faults (state self.new).faults) ⊥) }
        ensures settles { settles self.old self.new }
        ensures keeps { keeps self.old self.new };

    /// A block that is held under a score, grown to its full length. Damaged(1) where none is held; over a device that tells nothing
    /// whoever reads twice may find another.
    fn fetch(&mut self, score: &Score, kind: u8, into: &mut [u8]) -> Result<(), BlockError>
        requires length { length into.old ≡ 8192 }
        ensures bytes { OnOk result ((state self.old).tells → (state self.old).held score.now kind ≡ Some into.new) }
        ensures nothing { OnErr result (into.new ≡ into.old) }
        ensures now { SameImage (state self.new).now (state self.old).now }
        ensures images { AddsNothing (state self.old).may_leave (state self.new).may_leave }
        ensures holds { (state self.new).holds ≡ (state self.old).holds }
        ensures calm { Calm none 0 (state self.old) (state self.new) }
        ensures no_wait { AddsNoWait none (state self.old) (state self.new) }
        ensures cause { IfErr result (Caused ⊥ (λ b. (b ≡ 1) × ((state self.old).tells → (state self.old).held score.now kind ≡ None)) ⊥ (Rose (state self.old).arena_faults (state self.new).arena_faults)) }
        ensures keeps { keeps self.old self.new };

    // LAWS
    /// What memory has is among the images, and so is what a crash would leave now, as far as paths from the tops lead.
    ghost present: { (b : Self) → (state b).tells → (state b).may_leave (state b).now };

    ghost shown: { (b : Self) (image : Image) → (state b).left (state b).moments image → IsOneOf (state b).tops (state b).may_leave image };

    /// A device that has an image tells what it holds.
    ghost told: { (b : Self) (image : Image) → (state b).may_leave image → (state b).tells };

    /// The active tree is one that is kept; it hangs from slot 0 of block 1, which is no data block.
    ghost active: { (b : Self) → (state b).tops 1 × ((state b).is_block 1 → ⊥) };

    ghost root_named: { (b : Self) → (state b).tells → ((state b).now 1).slot 0 ≡ to_block (state b).root };

    /// The root block is a data block, over any device; where the device tells, it has the label of a current root block.
    ghost root_is: { (b : Self) → (state b).is_block (state b).root × ((state b).tells → ((((state b).label (state b).root).state ≡ Live) × (((state b).label (state b).root).kind ≡ Root) × (((state b).label (state b).root).epoch ≡ (state b).high))) };

    /// The root block hangs from block 1, and is written with what memory has.
    ghost root_linked: { (b : Self) → (state b).newborn (state b).root → ⊥ };

    /// In every image each block stands at its one place, is of its format, and leads on by its slots alone; and ranks fall.
    ghost one_place: { (b : Self) → OnePlace (state b).stands };

    ghost super_stands: { (b : Self) → (state b).tells → (state b).stands 1 super_place };

    /// The roots of snapshots stand at the place of a root.
    ghost top_stands: { (b : Self) (t : ℕ) → (state b).tells → (state b).tops t → t ≢ 1 → (state b).stands t root_place };

    ghost placed: { (b : Self) (image : Image) → (state b).may_leave image → IsPlaced (state b).stands image };

    ghost ranked: { (b : Self) (image : Image) → (state b).may_leave image → RanksFall (state b).stands image };

    ghost few: { (b : Self) (image : Image) → (state b).may_leave image → FewSlots (state b).stands image };

    ghost formed: { (b : Self) (image : Image) (t at : ℕ) (p : Place) → (state b).may_leave image → (state b).tops t → at ≢ 1 → Reaches image (to_block t) at → (state b).stands at p → IsFormed p.kind p.rank ((image at).bytes) };

    /// Images lead to a block at one spot alone.
    ghost one_spot: { (b : Self) → OneSpot (state b).tops (state b).may_leave };

    /// A block that stands at a place is a data block of its kind and tag.
    ghost labelled: { (b : Self) (at : ℕ) (p : Place) → (state b).tells → at ≢ 1 → (state b).stands at p → (state b).is_block at × (((state b).label at).kind ≡ p.kind) × (((state b).label at).tag ≡ p.tag) };

    /// A block that stands at a place is not usable by its label: none is given out.
    ghost standing: { (b : Self) (at : ℕ) (p : Place) → (state b).tells → at ≢ 1 → (state b).stands at p → is_usable (state b).low ((state b).label at) ≡ false };

    /// What memory names is a data block, over any device.
    ghost within: { (b : Self) (at i below : ℕ) → (state b).pinned at → target (((state b).now at).slot i) ≡ Local below → (state b).is_block below };

    /// Addresses are below 2^32 - 1, so that a pointer can spell them.
    ghost small: { (b : Self) (at : ℕ) → (state b).is_block at → at < 2 ^ 32 - 1 };

    /// What a pinned block has in its slots can be spelled there.
    ghost spelled: { (b : Self) (at i : ℕ) → (state b).pinned at → i < slot_count ((state b).label at).kind → SlotFits ((state b).label at).kind i (((state b).now at).slot i) };

    /// What the active tree reaches in memory is live, of an epoch up to the high one, and not to be closed.
    ghost live: { (b : Self) (at : ℕ) → (state b).tells → at ≢ 1 → Reaches (state b).now (to_block 1) at → (((state b).label at).state ≡ Live) × (((state b).label at).epoch ≤ (state b).high) × ((state b).covered at → ⊥) };

    /// In memory a block is of no later epoch than the one above it.
    ghost falls: { (b : Self) (t at i below : ℕ) → (state b).tells → (state b).tops t → at ≢ 1 → Reaches (state b).now (to_block t) at → target (((state b).now at).slot i) ≡ Local below → ((state b).label below).epoch ≤ ((state b).label at).epoch };

    /// In every image a block is what memory has: one of an older epoch that a kept tree has in memory, one that is known to be, and
    /// one that was given out since all was last written.
    ghost old_is_sure: { (b : Self) (t at : ℕ) → (state b).tops t → at ≢ 1 → Reaches (state b).now (to_block t) at → ((state b).label at).epoch < (state b).high → IsSure (state b).now at (state b).may_leave };

    ghost sure: { (b : Self) (at : ℕ) → (state b).sure at ⊎ (state b).fresh at → IsSure (state b).now at (state b).may_leave };

    /// A sealed block of the active tree, below no slot that waits, is in every image, where memory has it.
    ghost in_place: { (b : Self) (at : ℕ) → (state b).sealed at → (IsDoomed (state b) at → ⊥) → Reaches (state b).now (to_block 1) at → (image : Image) → (state b).may_leave image → Reaches image (to_block 1) at };

    /// The super block of an image is that of memory or the one doubt.
    ghost super_known: { (b : Self) → HasSuper (state b).now (state b).doubt (state b).may_leave };

    ghost one_doubt: { (b : Self) (c d : Content) → (state b).doubt c → (state b).doubt d → SameContent c d };

    /// The next file number is up to the limit that every image has, and below it where it is granted.
    ghost limited: { (b : Self) (image : Image) → (state b).may_leave image → ((state b).next ≤ (state b).limit (image 1)) × ((state b).grants → (state b).next < (state b).limit (image 1)) };

    /// What is waited for is in use, or the second of a pair whose first is.
    ghost waits_in_use: { (b : Self) (a on j : ℕ) → (state b).waits a on j → IsPairUsed (state b).now on j };

    /// Only slots of leaves of entries are waited for.
    ghost waits_within: { (b : Self) (a on j : ℕ) → (state b).waits a on j → ((state b).label on).kind ≡ Dir 0 };

    /// Only slots of leaves of entries of the current epoch wait to be cleared, and where the device tells the first of their pair is in
    /// use.
    ghost clears_entries: { (b : Self) (at j : ℕ) → (state b).clearing at j → (((state b).label at).kind ≡ Dir 0) × (((state b).label at).epoch ≡ (state b).high) };

    ghost clears_used: { (b : Self) → (state b).tells → WaitsInUse (state b) };

    /// What is to be closed is known only where the device tells.
    ghost covers_told: { (b : Self) (at : ℕ) → (state b).covered at → (state b).tells };

    /// Where no removal is queued, nothing is to be closed; block 1 never is.
    ghost none_queued: { (b : Self) (at : ℕ) → (state b).queued ≡ 0 → (state b).covered at → ⊥ };

    ghost one_stays: { (b : Self) → (state b).covered 1 → ⊥ };

    /// What may still be made is usable.
    ghost enough: { (b : Self) → (state b).spare ≤ (state b).usable };

    /// What is apart hangs from no top in any image.
    ghost apart_hangs: { (b : Self) (image : Image) (t at : ℕ) → (state b).apart at → (state b).may_leave image → (state b).tops t → Reaches image (to_block t) at → ⊥ };

    /// What comes in the place of another is apart, and comes in the place of that one alone.
    ghost instead_of: { (b : Self) (y x z : ℕ) → (state b).tells → (state b).instead y x → (state b).apart y × ((state b).instead y z → z ≡ x) };

    /// What every call keeps.
    ghost keeps_at_once: { (a : Self) → keeps a a };

    ghost keeps_joins: { (a b c : Self) → keeps a b → keeps b c → keeps a c };

    ghost keeps_all: { (a b : Self) → keeps a b → KeepsAll (state a) (state b) };
}
