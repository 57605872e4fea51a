//! The records of a leaf.
ghost use Rattle.std.specs.Prelude.{◌≡◌, ◌≢◌, ◌+◌, ◌<◌, ◌≤◌, ℕ, List, length, ◌∷◌, []};
ghost use Rattle.fo_image.specs.declared.types.Kind.TheVariants.{Data};
ghost use Rattle.fo_crash.specs.declared.place.Place.{Place};
ghost use Rattle.fo_crash.specs.Images.{Reaches, to_block};
ghost use Rattle.fo_crash.specs.Steps.{PutsBytes};
ghost use Rattle.fo_ports.specs.State.{IsDoomed, AddsNoWait, WaitsForPairs};
ghost use Rattle.fo_ports.specs.of_meta.Leaf.{IsLeaf};
ghost use Rattle.fo_dir_put.specs.Names.{AllFit, AreBacked, AreKept, AllApart, MayStand, LeavesRest};
ghost use Rattle.fo_dir_put.specs.Differ.{AllDiffer, MayName};
ghost use Rattle.fo_dir_put.specs.Once.{StandOnce, MayComeOnce};
ghost use Rattle.fo_dir_put.specs.Paired.{AllPaired, AllStood, ArePaired};
ghost use Rattle.fo_dir_put.specs.Puts.{IsHeldEntries, IsOwnedRecords, IsInPlace, StaysCalm, QueuesNone};
ghost use Rattle.fo_dir_put.specs.There.{IsThere};
ghost use Rattle.fo_ports.specs.Sources.{DirtiesIn};

use fo_ports::Blocks;

/// Puts the bytes of a leaf of records, after it was made to wait for the entries of a leaf of entries.
pub fn put_record<B: Blocks>(on: &mut B, leaf: u32, entries: u32, bytes: &[u8])
    requires owned { IsOwnedRecords (B.state on.old) leaf }
    requires entries { IsHeldEntries (B.state on.old) entries }
    requires lower { (B.state on.old).tells → IsInPlace (B.state on.old) leaf entries }
    requires room { 0 < (B.state on.old).room }
    requires bytes { IsLeaf bytes.now }
    ensures puts { PutsBytes leaf bytes.now (B.state on.old).now (B.state on.new).now }
    ensures fit { (n : ℕ) → AreBacked n leaf entries bytes.now (B.state on.old) → AllFit n leaf entries (B.state on.old).may_leave → AllFit n leaf entries (B.state on.new).may_leave }
    ensures apart { (b : ℕ) → b ≢ leaf → MayStand b bytes.now (((B.state on.old).now leaf).bytes) (B.state on.old).may_leave → AllApart leaf b (B.state on.old).may_leave → AllApart leaf b (B.state on.new).may_leave }
    ensures named { (leaves : List ℕ) → MayName leaves leaf bytes.now (((B.state on.old).now leaf).bytes) (B.state on.old).may_leave → AllDiffer leaves (B.state on.old).may_leave → AllDiffer leaves (B.state on.new).may_leave }
    ensures once { MayComeOnce leaf bytes.now (((B.state on.old).now leaf).bytes) (B.state on.old).may_leave → StandOnce (B.state on.old).may_leave → StandOnce (B.state on.new).may_leave }
    ensures paired { (n a e : ℕ) → (a ≡ leaf → ArePaired n leaf e entries bytes.now (B.state on.old)) → AllPaired n a e (B.state on.old) → AllPaired n a e (B.state on.new) }
    ensures others { LeavesRest leaf (B.state on.old).may_leave (B.state on.new).may_leave }
    ensures there { (B.state on.old).tells → (b : ℕ) → (B.state on.old).sealed b → (IsDoomed (B.state on.old) b → ⊥) → Reaches (B.state on.old).now (to_block 1) b → IsThere (B.state on.new) b }
    ensures calm { StaysCalm (B.state on.old) (B.state on.new) }
    ensures waits { WaitsForPairs leaf entries (B.state on.old) (B.state on.new) × AddsNoWait (λ a. a ≡ leaf) (B.state on.old) (B.state on.new) }
    ensures room { (B.state on.new).room + 1 ≡ (B.state on.old).room }
    ensures dirties { DirtiesIn (leaf ∷ []) (B.state on.old) (B.state on.new) }
    ensures keeps { B.keeps on.old on.new }
{
    on.wait_for(leaf, entries);
    on.put_bytes(leaf, 0, bytes);
}

/// Puts the bytes of a leaf of records whose records all stood there before: some are taken out, or other fields of them changed.
pub fn change_leaf<B: Blocks>(on: &mut B, leaf: u32, bytes: &[u8])
    requires owned { IsOwnedRecords (B.state on.old) leaf }
    requires bytes { IsLeaf bytes.now }
    ensures puts { PutsBytes leaf bytes.now (B.state on.old).now (B.state on.new).now }
    ensures fit { (n entries : ℕ) → AreKept n bytes.now (((B.state on.old).now leaf).bytes) → AllFit n leaf entries (B.state on.old).may_leave → AllFit n leaf entries (B.state on.new).may_leave }
    ensures apart { (b : ℕ) → b ≢ leaf → MayStand b bytes.now (((B.state on.old).now leaf).bytes) (B.state on.old).may_leave → AllApart leaf b (B.state on.old).may_leave → AllApart leaf b (B.state on.new).may_leave }
    ensures named { (leaves : List ℕ) → MayName leaves leaf bytes.now (((B.state on.old).now leaf).bytes) (B.state on.old).may_leave → AllDiffer leaves (B.state on.old).may_leave → AllDiffer leaves (B.state on.new).may_leave }
    ensures once { MayComeOnce leaf bytes.now (((B.state on.old).now leaf).bytes) (B.state on.old).may_leave → StandOnce (B.state on.old).may_leave → StandOnce (B.state on.new).may_leave }
    ensures paired { (n a e : ℕ) → (a ≡ leaf → AllStood n bytes.now (((B.state on.old).now leaf).bytes)) → AllPaired n a e (B.state on.old) → AllPaired n a e (B.state on.new) }
    ensures others { LeavesRest leaf (B.state on.old).may_leave (B.state on.new).may_leave }
    ensures calm { StaysCalm (B.state on.old) (B.state on.new) }
    ensures queues { QueuesNone (B.state on.old) (B.state on.new) }
    ensures room { (B.state on.new).room ≡ (B.state on.old).room }
    ensures dirties { DirtiesIn (leaf ∷ []) (B.state on.old) (B.state on.new) }
    ensures keeps { B.keeps on.old on.new }
{
    on.put_bytes(leaf, 0, bytes);
}
