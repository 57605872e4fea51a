//! A name is added, and its entry cleared.
ghost use Rattle.std.specs.Prelude.{◌≡◌, ◌≢◌, ◌⊎◌, ◌+◌, ◌*◌, ◌/◌, ◌<◌, ◌≤◌, ℕ, List, true, ◌∷◌, []};
ghost use Rattle.fo_image.specs.declared.types.Pointer.TheVariants.{Local};
ghost use Rattle.fo_crash.specs.Images.{Reaches, target, to_block};
ghost use Rattle.fo_crash.specs.Steps.{Covers, HasBytes, cleared};
ghost use Rattle.fo_ports.specs.of_meta.Leaf.{IsLeaf};
ghost use Rattle.fo_ports.specs.State.{AddsNoWait, IsDoomed, IsPointers, QueuesOne};
ghost use Rattle.fo_shown.specs.Shown.{ShowsNoMore};
ghost use Rattle.fo_dir_put.specs.Names.{ListsIn, AllFit, AddsOne, Lacks, AllApart, MayStand, ShowsBut, ShowsBytes};
ghost use Rattle.fo_dir_put.specs.Differ.{AllDiffer, MayName};
ghost use Rattle.fo_dir_put.specs.Once.{StandOnce, MayComeOnce};
ghost use Rattle.fo_dir_put.specs.Paired.{AllPaired, AddsPaired, IsUnnamed};
ghost use Rattle.fo_dir_put.specs.Puts.{IsOwnedEntries, IsOwnedRecords, IsInPlace, IsUnused, IsNewEntry, MayClear, StaysCalm, PutsName, ClearsAlone};
ghost use Rattle.fo_dir_put.specs.There.{IsThere};
ghost use Rattle.fo_ports.specs.Sources.{DirtiesIn};

use crate::pair::put_pair;
use crate::record::put_record;
use fo_image::Entry;
use fo_ports::Blocks;

/// Adds a name: the entries of its pair, and then the bytes of the leaf with its record.
pub fn add_name<B: Blocks>(
    on: &mut B,
    leaf: u32,
    entries: u32,
    p: u32,
    first: Entry,
    second: Entry,
    bytes: &[u8],
)
    requires owned { IsOwnedRecords (B.state on.old) leaf }
    requires entries { IsOwnedEntries (B.state on.old) entries }
    requires lower { (B.state on.old).tells → IsInPlace (B.state on.old) leaf entries }
    requires within { p < 102 }
    requires first_unused { IsUnused (B.state on.old) entries (2 * p) }
    requires second_unused { IsUnused (B.state on.old) entries (2 * p + 1) }
    requires new { IsNewEntry first × IsNewEntry second }
    requires active { first.active ≡ true }
    requires room { 0 < (B.state on.old).room }
    requires bytes { IsLeaf bytes.now }
    ensures puts { PutsName leaf entries p first second bytes.now (B.state on.old) (B.state on.new) }
    ensures fit { (n : ℕ) → AddsOne n p first.generation bytes.now (((B.state on.old).now leaf).bytes) → AllFit n leaf entries (B.state on.old).may_leave → AllFit n leaf entries (B.state on.new).may_leave }
    ensures apart { (b : ℕ) → b ≢ leaf → MayStand b bytes.now (((B.state on.old).now leaf).bytes) (B.state on.old).may_leave → AllApart leaf b (B.state on.old).may_leave → AllApart leaf b (B.state on.new).may_leave }
    ensures named { (leaves : List ℕ) → MayName leaves leaf bytes.now (((B.state on.old).now leaf).bytes) (B.state on.old).may_leave → AllDiffer leaves (B.state on.old).may_leave → AllDiffer leaves (B.state on.new).may_leave }
    ensures once { MayComeOnce leaf bytes.now (((B.state on.old).now leaf).bytes) (B.state on.old).may_leave → StandOnce (B.state on.old).may_leave → StandOnce (B.state on.new).may_leave }
    ensures paired { (n a e : ℕ) → (a ≡ leaf → AddsPaired n p e entries first second bytes.now (((B.state on.old).now leaf).bytes)) → AllPaired n a e (B.state on.old) → AllPaired n a e (B.state on.new) }
    ensures others { ShowsBut leaf (B.state on.old).may_leave (B.state on.new).may_leave }
    ensures there { (B.state on.old).tells → (b : ℕ) → (B.state on.old).sealed b → (IsDoomed (B.state on.old) b → ⊥) → Reaches (B.state on.old).now (to_block 1) b → IsThere (B.state on.new) b }
    ensures calm { StaysCalm (B.state on.old) (B.state on.new) }
    ensures waits { (B.state on.new).waits leaf entries (2 * p) × (B.state on.new).waits leaf entries (2 * p + 1) × AddsNoWait (λ a. a ≡ leaf) (B.state on.old) (B.state on.new) }
    ensures room { (B.state on.new).room + 1 ≡ (B.state on.old).room }
    ensures dirties { DirtiesIn (leaf ∷ entries ∷ []) (B.state on.old) (B.state on.new) }
    ensures keeps { B.keeps on.old on.new }
{
    put_pair(on, entries, p, first, second);
    put_record(on, leaf, entries, bytes);
}

/// Clears an entry which no record of a leaf in memory names, once the leaf is settled as it is now.
pub fn clear_entry<B: Blocks>(on: &mut B, leaf: u32, entries: u32, j: u32)
    requires owned { IsOwnedRecords (B.state on.old) leaf }
    requires entries { IsOwnedEntries (B.state on.old) entries }
    requires within { j < 204 }
    requires settled { (B.state on.old).clearing entries j → ⊥ }
    requires may { (B.state on.old).tells → MayClear (B.state on.old) entries j }
    requires room { 0 < (B.state on.old).room }
    ensures entry { ((((B.state on.new).now entries).slot j ≡ cleared (((B.state on.old).now entries).slot j)) × ((B.state on.new).clearing entries j → ⊥)) ⊎ ((((B.state on.new).now entries).slot j ≡ ((B.state on.old).now entries).slot j) × (B.state on.new).clearing entries j) }
    ensures settled { ((B.state on.new).clearing entries j → ⊥) → HasBytes (B.state on.old).now leaf (B.state on.new).may_leave }
    ensures fit { (n : ℕ) → Lacks n j (((B.state on.old).now leaf).bytes) → AllFit n leaf entries (B.state on.old).may_leave → AllFit n leaf entries (B.state on.new).may_leave }
    ensures paired { (n a e : ℕ) → (e ≡ entries → IsUnnamed n (j / 2) a leaf (B.state on.old)) → AllPaired n a e (B.state on.old) → AllPaired n a e (B.state on.new) }
    ensures shows { ShowsBytes (B.state on.old).may_leave (B.state on.new).may_leave }
    ensures shown { ShowsNoMore (B.state on.old).may_leave (B.state on.new).may_leave }
    ensures alone { ClearsAlone entries j (B.state on.old) (B.state on.new) }
    ensures covers { (B.state on.old).tells → Covers (IsPointers (B.state on.old)) (((B.state on.old).now entries).slot j) (B.state on.old).now (B.state on.new).now (B.state on.old).covered (B.state on.new).covered }
    ensures order { (b i : ℕ) → ((B.state on.new).clearing b i → (B.state on.old).clearing b i ⊎ ((b ≡ entries) × (i ≡ j))) × ((B.state on.old).clearing b i → (B.state on.new).clearing b i) }
    ensures later { (B.state on.old).dirty leaf → ((B.state on.old).newborn leaf → ⊥) → (B.state on.new).clearing entries j }
    ensures dirty { (b : ℕ) → (B.state on.new).dirty b → (B.state on.old).dirty b ⊎ (b ≡ entries) }
    ensures queues { ((B.state on.old).queued ≤ (B.state on.new).queued) × ((c : ℕ) → target (((B.state on.old).now entries).slot j) ≡ Local c → (B.state on.new).clearing entries j ⊎ QueuesOne (B.state on.old) (B.state on.new)) }
    ensures room { (B.state on.new).room + 1 ≡ (B.state on.old).room }
    ensures dirties { DirtiesIn (entries ∷ []) (B.state on.old) (B.state on.new) }
    ensures keeps { B.keeps on.old on.new }
{
    on.remove_slot(entries, j, Some(leaf));
}
