//! A record and its pair.
ghost use Rattle.std.specs.Prelude.{◌≡◌, ◌≢◌, ◌⊎◌, ◌+◌, ◌*◌, ◌<◌, ℕ, List, true, false, ◌∷◌, []};
ghost use Rattle.fo_image.specs.Record.{RecordHolds};
ghost use Rattle.fo_crash.specs.declared.slot.Slot.TheVariants.{Entry as Head};
ghost use Rattle.fo_meta.specs.Leaf.{IsLeaf};
ghost use Rattle.fo_dir_put.specs.Names.{AllFit, AllApart};
ghost use Rattle.fo_dir_put.specs.of_good.Trees.{IsFirst, IsSecond};
ghost use Rattle.fo_dir_put.specs.Differ.{AllDiffer};
ghost use Rattle.fo_dir_put.specs.Once.{StandOnce};
ghost use Rattle.fo_dir_put.specs.Paired.{AllPaired};
ghost use Rattle.fo_dir_put.specs.Puts.{IsOwnedEntries, IsOwnedRecords, IsInPlace, IsUnused, IsNewEntry, StaysCalm};
ghost use Rattle.fo_dir_put.specs.There.{IsThere};
ghost use Rattle.fo_crash.specs.Images.{Reaches, to_block};
ghost use Rattle.fo_ports.specs.State.{AddsNoWait, IsDoomed};
ghost use Rattle.fo_dir_add.specs.Adds.{HasAdded, IsFullFor, IsAlone, AddsAlone, AddsOnce};
ghost use Rattle.fo_ports.specs.Sources.{DirtiesIn};

use fo_dir_put::add_name;
use fo_image::{Entry, Record};
use fo_meta::insert;
use fo_ports::Blocks;

/// Adds a record at the end of a leaf, whose bytes are at hand, with the entries of its pair; or answers that it has no room.
pub fn add_record<B: Blocks>(
    on: &mut B,
    leaf: u32,
    entries: u32,
    p: u32,
    first: Entry,
    second: Entry,
    named: &Record,
    bytes: &mut [u8],
) -> bool
    requires owned { IsOwnedRecords (B.state on.old) leaf }
    requires entries { IsOwnedEntries (B.state on.old) entries }
    requires lower { (B.state on.old).tells → IsInPlace (B.state on.old) leaf entries }
    requires within { p < 102 }
    requires first_unused { IsUnused (B.state on.old) entries (2 * p) }
    requires second_unused { IsUnused (B.state on.old) entries (2 * p + 1) }
    requires new { IsNewEntry first × IsNewEntry second × (first.active ≡ true) }
    requires room { 0 < (B.state on.old).room }
    requires spelled { RecordHolds named.now }
    requires bytes { IsLeaf bytes.old × (bytes.old ≡ ((B.state on.old).now leaf).bytes) }
    ensures added { result ≡ true → HasAdded named.now (((B.state on.old).now leaf).bytes) (((B.state on.new).now leaf).bytes) }
    ensures pair { result ≡ true → (((B.state on.new).now entries).slot (2 * p) ≡ Head first) × (((B.state on.new).now entries).slot (2 * p + 1) ≡ Head second) }
    ensures full { result ≡ false → IsFullFor named.now (((B.state on.old).now leaf).bytes) × (on.new ≡ on.old) }
    ensures hand { IsLeaf bytes.new × (bytes.new ≡ ((B.state on.new).now leaf).bytes) }
    ensures fit { (n : ℕ) → named.now.slot ≡ 102 * n + p → named.now.generation ≡ first.generation → AllFit n leaf entries (B.state on.old).may_leave → AllFit n leaf entries (B.state on.new).may_leave }
    ensures apart { (b : ℕ) → b ≢ leaf → IsAlone named.now b (B.state on.old).may_leave → AllApart leaf b (B.state on.old).may_leave → AllApart leaf b (B.state on.new).may_leave }
    ensures named { (leaves : List ℕ) → AddsAlone named.now leaf leaves (((B.state on.old).now leaf).bytes) (B.state on.old).may_leave → AllDiffer leaves (B.state on.old).may_leave → AllDiffer leaves (B.state on.new).may_leave }
    ensures once { AddsOnce named.now leaf (((B.state on.old).now leaf).bytes) (B.state on.old).may_leave → StandOnce (B.state on.old).may_leave → StandOnce (B.state on.new).may_leave }
    ensures paired { (n a e m : ℕ) → named.now.slot ≡ 102 * m + p → (n ≡ m → e ≡ entries) → IsFirst (Head first) named.now → IsSecond (Head second) named.now → AllPaired n a e (B.state on.old) → AllPaired n a e (B.state on.new) }
    ensures there { result ≡ true → (B.state on.old).tells → (b : ℕ) → (B.state on.old).sealed b → (IsDoomed (B.state on.old) b → ⊥) → Reaches (B.state on.old).now (to_block 1) b → IsThere (B.state on.new) b }
    ensures bytes { result ≡ true → (b : ℕ) → b ≢ leaf → ((B.state on.new).now b).bytes ≡ ((B.state on.old).now b).bytes }
    ensures slots { result ≡ true → (b j : ℕ) → (b ≢ entries) ⊎ ((j ≢ 2 * p) × (j ≢ 2 * p + 1)) → ((B.state on.new).now b).slot j ≡ ((B.state on.old).now b).slot j }
    ensures calm { result ≡ true → StaysCalm (B.state on.old) (B.state on.new) }
    ensures waits { result ≡ true → (B.state on.new).waits leaf entries (2 * p) × (B.state on.new).waits leaf entries (2 * p + 1) × AddsNoWait (λ a. a ≡ leaf) (B.state on.old) (B.state on.new) }
    ensures room { result ≡ true → (B.state on.new).room + 1 ≡ (B.state on.old).room }
    ensures dirties { DirtiesIn (leaf ∷ entries ∷ []) (B.state on.old) (B.state on.new) }
    ensures keeps { B.keeps on.old on.new }
{
    match insert(bytes, named) {
        Ok(()) => {
            add_name(on, leaf, entries, p, first, second, bytes);
            true
        }
        Err(_) => false,
    }
}
