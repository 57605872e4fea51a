//! A record of a new file, which gets its pair here.
ghost use Rattle.std.specs.Prelude.{◌≡◌, ◌≢◌, ◌⊎◌, ◌+◌, ◌*◌, ◌%◌, ◌^◌, ◌<◌, ℕ, List, true, false, ◌∷◌, []};
ghost use Rattle.fo_image.specs.declared.types.Entry.{Entry};
ghost use Rattle.fo_image.specs.declared.record.Record.{Record};
ghost use Rattle.fo_image.specs.Record.{RecordHolds};
ghost use Rattle.fo_crash.specs.declared.slot.Slot.TheVariants.{Entry as Head};
ghost use Rattle.fo_meta.specs.Leaf.{IsLeaf};
ghost use Rattle.fo_ports.specs.State.{AddsNoWait};
ghost use Rattle.fo_dir_put.specs.of_world.Step.{is_dir_mode};
ghost use Rattle.fo_dir_put.specs.of_good.Trees.{IsFirst, IsSecond};
ghost use Rattle.fo_dir_put.specs.Names.{AllApart};
ghost use Rattle.fo_dir_put.specs.Differ.{AllDiffer};
ghost use Rattle.fo_dir_put.specs.Once.{StandOnce};
ghost use Rattle.fo_dir_put.specs.Paired.{AllPaired, HasBoth};
ghost use Rattle.fo_dir_put.specs.Puts.{IsOwnedEntries, IsOwnedRecords, IsInPlace, IsNewEntry, IsTakenEntry, StaysCalm};
ghost use Rattle.fo_dir_add.specs.Adds.{HasAdded, IsFullFor, IsAlone, AddsAlone, AddsOnce, IsNumbered, IsRaised};
ghost use Rattle.fo_ports.specs.Sources.{DirtiesIn};

use crate::add::add_record;
use fo_dir_put::{is_free, next_generation};
use fo_image::{Entry, Pointer, Record};
use fo_ports::Blocks;

/// What came of a record that was to be added.
#[derive(Clone, Copy, Debug, PartialEq, Eq)]
pub enum Outcome {
    /// It was added.
    Added,
    /// Its pair is in use, or waits to be cleared.
    Taken,
    /// It has no room in the leaf.
    NoRoom,
}

/// The first entry of a new file of this number and generation.
fn first_entry(number: u32, generation: u32, dir: bool) -> Entry
    requires small { number < 2 ^ 30 }
    ensures new { IsNewEntry result × (result.active ≡ true) × (result.generation ≡ generation) }
    ensures of { (r : Record) → r.number ≡ number → r.generation ≡ generation → is_dir_mode r.mode ≡ dir → IsFirst (Head result) r }
{
    Entry {
        generation,
        active: true,
        dir,
        depth: 0,
        tag: 32 + 2 * number,
        size: 0,
        top: Pointer::Nil,
    }
}

/// The second: a directory's records, or one that is not in use.
fn second_entry(number: u32, generation: u32, dir: bool) -> Entry
    requires small { number < 2 ^ 30 }
    ensures new { IsNewEntry result }
    ensures of { (r : Record) → r.number ≡ number → is_dir_mode r.mode ≡ dir → IsSecond (Head result) r }
{
    Entry {
        generation,
        active: dir,
        dir: false,
        depth: 0,
        tag: if dir { 33 + 2 * number } else { 0 },
        size: 0,
        top: Pointer::Nil,
    }
}

/// Gives a record its pair.
fn number_record(named: &mut Record, slot: u32, generation: u32)
    requires { RecordHolds named.old }
    ensures numbered { IsNumbered named.old slot generation named.new }
    ensures holds { RecordHolds named.new }
{
    named.slot = slot;
    named.generation = generation;
}

/// Adds a record of a new file at the end of a leaf, whose bytes are at hand, with pair `p` of leaf `n` of the entries where that is free:
/// the record gets the pair, with its generation raised by 1.
pub fn add_new<B: Blocks>(
    on: &mut B,
    leaf: u32,
    entries: u32,
    n: u32,
    p: u32,
    named: &mut Record,
    bytes: &mut [u8],
) -> Outcome
    requires owned { IsOwnedRecords (B.state on.old) leaf }
    requires entries { IsOwnedEntries (B.state on.old) entries }
    requires lower { (B.state on.old).tells → IsInPlace (B.state on.old) leaf entries }
    requires within { (p < 102) × (102 * n + p < 2 ^ 32) }
    requires number { named.old.number < 2 ^ 30 }
    requires room { 0 < (B.state on.old).room }
    requires spelled { RecordHolds named.old }
    requires bytes { IsLeaf bytes.old × (bytes.old ≡ ((B.state on.old).now leaf).bytes) }
    ensures added { result ≡ Outcome.Added → HasAdded named.new (((B.state on.old).now leaf).bytes) (((B.state on.new).now leaf).bytes) × HasBoth entries (B.state on.new).now named.new }
    ensures gets { result ≡ Outcome.Added → IsNumbered named.old (102 * n + p) named.new.generation named.new × IsRaised (((B.state on.old).now entries).slot (2 * p)) named.new.generation }
    ensures full { result ≡ Outcome.NoRoom → IsFullFor named.old (((B.state on.old).now leaf).bytes) × IsNumbered named.old (102 * n + p) named.new.generation named.new × (on.new ≡ on.old) }
    ensures taken { result ≡ Outcome.Taken → (IsTakenEntry (B.state on.old) entries (2 * p) ⊎ IsTakenEntry (B.state on.old) entries (2 * p + 1)) × (on.new ≡ on.old) × (named.new ≡ named.old) }
    ensures holds { RecordHolds named.new }
    ensures hand { IsLeaf bytes.new × (bytes.new ≡ ((B.state on.new).now leaf).bytes) }
    ensures apart { (b : ℕ) → b ≢ leaf → IsAlone named.new b (B.state on.old).may_leave → AllApart leaf b (B.state on.old).may_leave → AllApart leaf b (B.state on.new).may_leave }
    ensures named { (leaves : List ℕ) → AddsAlone named.new leaf leaves (((B.state on.old).now leaf).bytes) (B.state on.old).may_leave → AllDiffer leaves (B.state on.old).may_leave → AllDiffer leaves (B.state on.new).may_leave }
    ensures once { AddsOnce named.new leaf (((B.state on.old).now leaf).bytes) (B.state on.old).may_leave → StandOnce (B.state on.old).may_leave → StandOnce (B.state on.new).may_leave }
    ensures paired { (m a e : ℕ) → (m ≡ n → e ≡ entries) → AllPaired m a e (B.state on.old) → AllPaired m a e (B.state on.new) }
    ensures bytes { result ≡ Outcome.Added → (b : ℕ) → b ≢ leaf → ((B.state on.new).now b).bytes ≡ ((B.state on.old).now b).bytes }
    ensures slots { result ≡ Outcome.Added → (b j : ℕ) → (b ≢ entries) ⊎ ((j ≢ 2 * p) × (j ≢ 2 * p + 1)) → ((B.state on.new).now b).slot j ≡ ((B.state on.old).now b).slot j }
    ensures calm { result ≡ Outcome.Added → StaysCalm (B.state on.old) (B.state on.new) }
    ensures waits { result ≡ Outcome.Added → (B.state on.new).waits leaf entries (2 * p) × (B.state on.new).waits leaf entries (2 * p + 1) × AddsNoWait (λ a. a ≡ leaf) (B.state on.old) (B.state on.new) }
    ensures room { result ≡ Outcome.Added → (B.state on.new).room + 1 ≡ (B.state on.old).room }
    ensures dirties { DirtiesIn (leaf ∷ entries ∷ []) (B.state on.old) (B.state on.new) }
    ensures keeps { B.keeps on.old on.new }
{
    if !is_free(on, entries, p) {
        return Outcome::Taken;
    }
    let generation = next_generation(on, entries, p);
    number_record(named, 102 * n + p, generation);
    let dir = named.mode >= 0x8000_0000;
    let first = first_entry(named.number, generation, dir);
    let second = second_entry(named.number, generation, dir);
    if add_record(on, leaf, entries, p, first, second, named, bytes) {
        Outcome::Added
    } else {
        Outcome::NoRoom
    }
}
