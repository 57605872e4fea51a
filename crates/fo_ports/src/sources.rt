//! Sources of bytes over blocks.
ghost use Rattle.std.specs.Prelude.{◌≡◌, ◌≢◌, ◌⊎◌, ◌↔◌, ◌+◌, ◌-◌, ◌*◌, ◌%◌, ◌/◌, ◌<◌, ◌≤◌, ℕ, true, false, List, length, take, drop, min, max, IfOk, OnOk, IfErr, IfSome, Option, Some, None};
ghost use Rattle.fo_base.specs.Cause.{Rose};
ghost use Rattle.fo_sparse.specs.Written.{written, resized};
ghost use Rattle.fo_meta.specs.of_image.declared.types.State.TheVariants.{Live};
ghost use Rattle.fo_meta.specs.of_image.declared.types.Kind.TheVariants.{Data};
ghost use Rattle.fo_meta.specs.of_image.declared.types.Pointer.{Pointer};
ghost use Rattle.fo_meta.specs.of_image.declared.types.Pointer.TheVariants.{Nil, Local};
ghost use Rattle.fo_crash.specs.declared.place.Place.{Place};
ghost use Rattle.fo_crash.specs.Images.{Reaches, to_block};
ghost use Rattle.fo_ports.specs.Causes.{Caused};
ghost use Rattle.fo_ports.specs.State.{Looks, none};
ghost use Rattle.fo_ports.specs.Alike.{KeepsAlike, stem_of};
ghost use Rattle.fo_ports.specs.Shown.{ShowsNoMore};
ghost use Rattle.fo_ports.specs.Sources.{Dirties, Form, Leaves, is_dir, source_bytes, Lacks, depth_for, most_for, most_to_own, IsEnough, Finds, AreLocal, ComesFor, IsReady, StaysReady, Changes, SameLeaves, Grows, IsPlain, Owned, MayZero, Undisturbed};

use crate::blocks::Blocks;
use crate::error::BlockError;
use fo_meta::Entry;

/// A source of bytes: a list of bytes in leaves of 8192 bytes each, as a value that borrows nothing. The data of a file is a
/// source, and so are the records and the entries of a directory.
///
/// Its meaning over blocks is the list of bytes that memory reads through it, where a leaf is named by its score as it is held, and 0
/// where there is no leaf. A request first reserves blocks, pins and removals, then prepares what it will change, and then changes it
/// by calls that refuse nothing. A refusal leaves the source's bytes as they were.
///
/// The caller puts the source's entry into its slot when the source has changed; until then no image shows what hangs from a new
/// top. Only a trimmed source grows: a crash may have left leaves behind the end, whose length was never written, and whoever makes
/// a source has a call that clears them. To clear and to fill such a slot within one call would leave images that show neither what was
/// nor what is, and in a directory the records of the leaf that was.
pub trait Bytes<B: Blocks> {
    /// What stays of the source.
    ghost form: { Self → Form };

    /// How many bytes it has.
    ghost size: { Self → ℕ };

    /// To what its entry leads: the block from which all others hang.
    ghost top: { Self → Pointer };

    /// The source stands over these blocks, which are as it needs them.
    ghost is_over: { Self → B → Type 0 };

    /// What it has over them.
    ghost leaves: { Self → B → Leaves };

    /// Nothing is named behind its end in the blocks on the way to its last leaf, which are prepared: so it may grow.
    ghost is_trimmed: { Self → B → Type 0 };

    /// How many bytes the source has.
    fn len(&self) -> u64
        ensures { result ≡ size self.now };

    /// The source's entry as it is now, in use, with the least depth for its size.
    fn entry(&self) -> Entry
        ensures used { (result.active ≡ true) × (result.generation ≡ (form self.now).generation) }
        ensures is { (result.dir ≡ is_dir (form self.now).kind) × (result.tag ≡ (form self.now).tag) × (result.size ≡ size self.now) }
        ensures hangs { (result.top ≡ top self.now) × ((b : B) → is_over self.now b → result.depth ≡ depth_for (size self.now)) };

    /// Whether nothing is named behind the source's end, where the blocks on the way to its last leaf are prepared: by bytes that have
    /// the source's last one, or end past it.
    fn trimmed(&self, on: &B) -> bool
        requires over { is_over self.now on.now }
        requires prepared { 0 < size self.now → (o : ℕ) × (n : ℕ) × (leaves self.now on.now).prepared o n × (0 < n) × (size self.now ≤ o + n) }
        ensures yes { result ≡ true → is_trimmed self.now on.now }
        ensures no { result ≡ false → is_trimmed self.now on.now → ⊥ };

    /// Copies the bytes from the offset on to the front of the slice, as many as there are and fit, and says how many. Where it is
    /// refused the front of the slice may have been changed. Of a source of entries nothing is said of the bytes given, since its
    /// leaves are read by `leaf` and slot by slot; nor of a leaf under a score where the device tells nothing.
    fn read(&mut self, on: &mut B, offset: u64, into: &mut [u8]) -> Result<usize, BlockError>
        requires over { is_over self.old on.old }
        ensures count { IfOk result (λ n. n ≡ min (length into.old) (size self.old - offset)) }
        ensures given { IfOk result (λ n. (form self.old).kind ≡ Data 0 → Finds (B.state on.old).tells (most_for (size self.old) (length into.old)) (B.state on.old).pins_left ((leaves self.old on.old).prepared offset (length into.old)) → (B.state on.old).tells ⊎ AreLocal (leaves self.new on.new).at (size self.old) offset (length into.old) → take n into.new ≡ take (length into.old) (drop offset (leaves self.new on.new).bytes)) }
        ensures behind { IfOk result (λ n. drop n into.new ≡ drop n into.old) }
        ensures over { is_over self.new on.new }
        ensures same { (form self.new ≡ form self.old) × (size self.new ≡ size self.old) × SameLeaves (B.state on.old).tells (leaves self.old on.old) (leaves self.new on.new) }
        ensures top { top self.new ≡ top self.old }
        ensures trimmed { is_trimmed self.old on.old → is_trimmed self.new on.new }
        ensures pins { (B.state on.old).pins_left ≤ (B.state on.new).pins_left + most_for (size self.old) (length into.old) }
        ensures looks { Looks (B.state on.old) (B.state on.new) × B.keeps on.old on.new }
        ensures cause { IfErr result (Caused ⊥ (λ b. (((B.state on.old).tells → ⊥) × (B.state on.old).is_block b) ⊎ ((b ≡ 1) × ((B.state on.old).tells → Lacks (leaves self.old on.old).named (B.state on.old).held))) (Rose (B.state on.old).faults (B.state on.new).faults) (Rose (B.state on.old).arena_faults (B.state on.new).arena_faults)) };

    /// The address of leaf `i`; None exactly where no local leaf stands.
    fn leaf(&mut self, on: &mut B, i: u32) -> Result<Option<u32>, BlockError>
        requires over { is_over self.old on.old }
        ensures at { IfOk result (λ at. Finds (B.state on.old).tells (depth_for (size self.old)) (B.state on.old).pins_left ((leaves self.old on.old).prepared (8192 * i) 8192) → at ≡ (leaves self.new on.new).at i) }
        ensures block { IfOk result (λ at. IfSome at (λ b. (B.state on.new).is_block b)) }
        ensures over { is_over self.new on.new }
        ensures same { (form self.new ≡ form self.old) × (size self.new ≡ size self.old) × SameLeaves (B.state on.old).tells (leaves self.old on.old) (leaves self.new on.new) }
        ensures top { top self.new ≡ top self.old }
        ensures trimmed { is_trimmed self.old on.old → is_trimmed self.new on.new }
        ensures pins { (B.state on.old).pins_left ≤ (B.state on.new).pins_left + depth_for (size self.old) }
        ensures looks { Looks (B.state on.old) (B.state on.new) × B.keeps on.old on.new }
        ensures cause { IfErr result (Caused ⊥ (λ b. ((B.state on.old).tells → ⊥) × (B.state on.old).is_block b) (Rose (B.state on.old).faults (B.state on.new).faults) ⊥) };

    /// Gets, and so pins, the blocks on the way to these bytes, and where they end past the source's end those on the way to its
    /// last leaf. Over a device that tells nothing a block whose label is not that of a live block of the source is damaged.
    fn prepare(&mut self, on: &mut B, offset: u64, len: u64) -> Result<(), BlockError>
        requires over { is_over self.old on.old }
        requires limit { offset + len ≤ (form self.old).limit }
        ensures prepared { OnOk result (most_for (max (size self.old) (offset + len)) len ≤ (B.state on.old).pins_left → (leaves self.new on.new).prepared offset len) }
        ensures over { is_over self.new on.new }
        ensures same { (form self.new ≡ form self.old) × (size self.new ≡ size self.old) × SameLeaves (B.state on.old).tells (leaves self.old on.old) (leaves self.new on.new) }
        ensures top { top self.new ≡ top self.old }
        ensures trimmed { is_trimmed self.old on.old → is_trimmed self.new on.new }
        ensures pins { (B.state on.old).pins_left ≤ (B.state on.new).pins_left + most_for (max (size self.old) (offset + len)) len }
        ensures looks { Looks (B.state on.old) (B.state on.new) × B.keeps on.old on.new }
        ensures cause { IfErr result (Caused ⊥ (λ b. (((B.state on.old).tells → ⊥) × (B.state on.old).is_block b) ⊎ ((b ≡ 1) × ((B.state on.old).tells → Lacks (leaves self.old on.old).named (B.state on.old).held))) (Rose (B.state on.old).faults (B.state on.new).faults) (Rose (B.state on.old).arena_faults (B.state on.new).arena_faults)) };

    /// Puts the piece in the place of the bytes from the offset on, with zeros between the end and it. Older blocks are copied
    /// first. Of a source of data that holds no records. Over a device that tells nothing a write below the last leaf, or of more than one,
    /// may leave something behind the end, as one block may stand on two ways there.
    fn write(&mut self, on: &mut B, offset: u64, piece: &[u8])
        requires over { is_over self.old on.old }
        requires kind { IsPlain (form self.old) }
        requires prepared { (leaves self.old on.old).prepared offset (length piece.now) }
        requires spare { most_for (max (size self.old) (offset + length piece.now)) (length piece.now) ≤ (B.state on.old).spare }
        requires trimmed { size self.old < offset + length piece.now → is_trimmed self.old on.old }
        ensures size { (length piece.now ≡ 0 → size self.new ≡ size self.old) × (0 < length piece.now → size self.new ≡ max (size self.old) (offset + length piece.now)) }
        ensures bytes { (B.state on.old).tells → (leaves self.new on.new).bytes ≡ written (leaves self.old on.old).bytes offset piece.now }
        ensures over { is_over self.new on.new × (form self.new ≡ form self.old) }
        ensures grows { Grows (B.state on.old) (B.state on.new) (leaves self.old on.old) (leaves self.new on.new) }
        ensures spare { (B.state on.old).spare ≤ (B.state on.new).spare + most_for (max (size self.old) (offset + length piece.now)) (length piece.now) }
        ensures dirties { Dirties (2 * most_for (max (size self.old) (offset + length piece.now)) (length piece.now)) none (B.state on.old) (B.state on.new) }
        ensures room { (B.state on.new).room ≡ (B.state on.old).room }
        ensures trimmed { (B.state on.old).tells ⊎ ((size self.old ≤ 8192 * (offset / 8192 + 1)) × (offset + length piece.now ≤ 8192 * (offset / 8192 + 1))) → is_trimmed self.old on.old → is_trimmed self.new on.new }
        ensures comes { (B.state on.old).tells → (from : Pointer) → ComesFor (B.state on.old) (top self.old) from → ComesFor (B.state on.new) (top self.new) from }
        ensures only { (B.state on.old).tells → top self.new ≢ Nil → (y x : ℕ) → (B.state on.new).instead y x → (top self.new ≡ Local y) ⊎ ((B.state on.old).instead y x × (top self.old ≡ Local y → ⊥)) }
        ensures changes { Changes (form self.old).tag (leaves self.old on.old).owns (leaves self.old on.old).owns (B.state on.old) (B.state on.new) × B.keeps on.old on.new }
        ensures shown { ShowsNoMore (B.state on.old).may_leave (B.state on.new).may_leave };

    /// Makes leaf `i` one of the current epoch, and gives its address: an older leaf is copied, so is one that is held under its
    /// score, and a missing one is added. Where the source ends before the leaf does, it now ends there. Then the leaf that was the last
    /// is copied where it is older, and zeroed behind the end of data; no other leaf changes. A source of entries that gets more levels
    /// is linked: what hangs from its entries is live.
    fn own_leaf(&mut self, on: &mut B, i: u32) -> u32
        requires over { is_over self.old on.old }
        requires prepared { (leaves self.old on.old).prepared (8192 * i) 8192 }
        requires spare { IsEnough (leaves self.old on.old).current (size self.old) i (B.state on.old).spare }
        requires trimmed { size self.old < 8192 * (i + 1) → is_trimmed self.old on.old }
        requires linked { (B.state on.old).tells → is_dir (form self.old).kind ≡ true → depth_for (size self.old) < depth_for (8192 * (i + 1)) → (b : ℕ) → (leaves self.old on.old).owns b → Reaches (B.state on.old).now (to_block 1) b }
        ensures owned { Owned (form self.old) (size self.old) i result (B.state on.old) (B.state on.new) (leaves self.old on.old) (leaves self.new on.new) }
        ensures size { size self.new ≡ max (size self.old) (8192 * (i + 1)) }
        ensures bytes { (B.state on.old).tells → IsPlain (form self.old) ⊎ ((size self.old % 8192 ≡ 0) ⊎ (8192 * (i + 1) ≤ size self.old)) → (leaves self.new on.new).bytes ≡ resized (leaves self.old on.old).bytes (max (size self.old) (8192 * (i + 1))) }
        ensures over { is_over self.new on.new × (form self.new ≡ form self.old) }
        ensures grows { Grows (B.state on.old) (B.state on.new) (leaves self.old on.old) (leaves self.new on.new) }
        ensures spare { ((B.state on.old).spare ≤ (B.state on.new).spare + most_to_own (size self.old) i) × ((leaves self.old on.old).current → (B.state on.old).spare + 1 ≤ (B.state on.new).spare + most_to_own (size self.old) i) }
        ensures dirties { Dirties (2 * most_to_own (size self.old) i) (λ b. b ≡ result) (B.state on.old) (B.state on.new) }
        ensures current { (leaves self.new on.new).current }
        ensures room { (B.state on.new).room ≡ (B.state on.old).room }
        ensures trimmed { (B.state on.old).tells ⊎ (size self.old ≤ 8192 * (i + 1)) → is_trimmed self.old on.old → is_trimmed self.new on.new }
        ensures comes { (B.state on.old).tells → (from : Pointer) → ComesFor (B.state on.old) (top self.old) from → ComesFor (B.state on.new) (top self.new) from }
        ensures only { (B.state on.old).tells → top self.new ≢ Nil → (y x : ℕ) → (B.state on.new).instead y x → (top self.new ≡ Local y) ⊎ ((B.state on.old).instead y x × (top self.old ≡ Local y → ⊥)) }
        ensures changes { Changes (form self.old).tag (leaves self.old on.old).owns (MayZero (form self.old) (size self.old) i (B.state on.old) (leaves self.old on.old)) (B.state on.old) (B.state on.new) × B.keeps on.old on.new }
        ensures shown { ShowsNoMore (B.state on.old).may_leave (B.state on.new).may_leave }
        ensures alike { KeepsAlike (B.state on.old) (B.state on.new) (stem_of (form self.old) (size self.old) (top self.old)) (stem_of (form self.new) (size self.new) (top self.new)) };

    // LAWS
    /// The bytes are those of the leaves in memory.
    ghost bytes_are: { (s : Self) (b : B) → is_over s b → (leaves s b).bytes ≡ source_bytes (leaves s b).at (leaves s b).held (B.state b).now (size s) };

    /// A source of entries or of records has no leaf under a score: archived forms of these are others, and come into no active tree.
    ghost none_held: { (s : Self) (b : B) (i : ℕ) → is_over s b → (B.state b).tells → (IsPlain (form s) → ⊥) → (leaves s b).held i ≡ None };

    /// No leaf stands at the end of the source and behind it.
    ghost none_behind: { (s : Self) (b : B) (i : ℕ) → is_over s b → size s ≤ 8192 * i → ((leaves s b).at i ≡ None) × ((leaves s b).held i ≡ None) };

    ghost in_limit: { (s : Self) (b : B) → is_over s b → size s ≤ (form s).limit };

    /// Two leaves are two blocks.
    ghost apart: { (s : Self) (b : B) (i j at : ℕ) → is_over s b → (B.state b).tells → (leaves s b).at i ≡ Some at → (leaves s b).at j ≡ Some at → i ≡ j };

    ghost leaf_owned: { (s : Self) (b : B) (i at : ℕ) → is_over s b → (leaves s b).at i ≡ Some at → (leaves s b).owns at };

    /// The block to which its entry leads is one of its own.
    ghost top_owned: { (s : Self) (b : B) (at : ℕ) → is_over s b → top s ≡ Local at → (leaves s b).owns at };

    /// A leaf stands at a place, which is of the source's kind, tag and rank.
    ghost leaf_stands: { (s : Self) (b : B) (i at : ℕ) → is_over s b → (B.state b).tells → (leaves s b).at i ≡ Some at → (p : Place) × (B.state b).stands at p };

    ghost leaf_place: { (s : Self) (b : B) (i at : ℕ) (p : Place) → is_over s b → (B.state b).tells → (leaves s b).at i ≡ Some at → (B.state b).stands at p → (p.kind ≡ (form s).kind) × (p.tag ≡ (form s).tag) × (p.rank ≡ (form s).rank) };

    /// The source's blocks have its tag, so sources of two tags share none. They are live, of an epoch up to the high one, and not to
    /// be closed.
    ghost owned: { (s : Self) (b : B) (at : ℕ) (p : Place) → is_over s b → (B.state b).tells → (leaves s b).owns at → (B.state b).stands at p → p.tag ≡ (form s).tag };

    ghost live: { (s : Self) (b : B) (at : ℕ) → is_over s b → (B.state b).tells → (leaves s b).owns at → (((B.state b).label at).state ≡ Live) × (((B.state b).label at).epoch ≤ (B.state b).high) × ((B.state b).covered at → ⊥) };

    /// Where its blocks stay in place, and keep their bytes but for leaves that end within it, a source keeps its leaves. Over a
    /// device that tells nothing it stays over the blocks whatever else is done to them.
    ghost stays: { (s : Self) (a b : B) → is_over s a → B.keeps a b → ((B.state a).tells → Undisturbed (leaves s a) (size s) (B.state a) (B.state b)) → is_over s b × ((B.state a).tells → ((i : ℕ) → ((leaves s b).at i ≡ (leaves s a).at i) × ((leaves s b).held i ≡ (leaves s a).held i)) × ((at : ℕ) → (leaves s b).owns at ↔ (leaves s a).owns at)) };

    /// Where the blocks that are prepared stay so, the source's top stays of the current epoch.
    ghost still_current: { (s : Self) (a b : B) → is_over s a → is_over s b → B.keeps a b → ((at : ℕ) → IsReady (form s).tag (B.state a) at → StaysReady (B.state a) (B.state b) at) → ((at : ℕ) → (leaves s a).owns at → (B.state b).label at ≡ (B.state a).label at) → (leaves s a).current → (leaves s b).current };

    /// Where the blocks that are prepared stay so, what is trimmed stays so.
    ghost still_trimmed: { (s : Self) (a b : B) → is_over s a → is_over s b → B.keeps a b → ((at : ℕ) → IsReady (form s).tag (B.state a) at → StaysReady (B.state a) (B.state b) at) → is_trimmed s a → is_trimmed s b };

    /// Where the blocks that are prepared stay so, what was prepared stays so.
    ghost still_prepared: { (s : Self) (a b : B) (o n : ℕ) → is_over s a → is_over s b → B.keeps a b → ((at : ℕ) → IsReady (form s).tag (B.state a) at → StaysReady (B.state a) (B.state b) at) → (leaves s a).prepared o n → (leaves s b).prepared o n };

    /// What is prepared ends within the limit, and each part of it is prepared.
    ghost prepared_within: { (s : Self) (b : B) (o n p m : ℕ) → (leaves s b).prepared o n → o ≤ p → p + m ≤ o + n → (leaves s b).prepared p m × (o + n ≤ (form s).limit) };
}
