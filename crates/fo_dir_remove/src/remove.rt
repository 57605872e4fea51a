//! A record goes, and then the first entry of its pair.
ghost use Rattle.std.specs.Prelude.{◌≡◌, ◌≢◌, ◌⊎◌, ◌+◌, ◌*◌, ◌<◌, ◌≤◌, ℕ, List, true, false, ◌∷◌, []};
ghost use Rattle.std.specs.List.{Contains};
ghost use Rattle.fo_ports.specs.of_meta.Leaf.{IsLeaf};
ghost use Rattle.fo_image.specs.declared.types.Pointer.TheVariants.{Local};
ghost use Rattle.fo_crash.specs.Images.{Reaches, target};
ghost use Rattle.fo_crash.specs.Steps.{Covers, PutsBytes};
ghost use Rattle.fo_ports.specs.State.{IsPointers, QueuesOne};
ghost use Rattle.fo_dir_change.specs.of_dir_put.Names.{ShowsBut};
ghost use Rattle.fo_dir_change.specs.of_dir_put.Differ.{AllDiffer};
ghost use Rattle.fo_dir_change.specs.of_dir_put.Once.{StandOnce};
ghost use Rattle.fo_dir_change.specs.of_dir_put.Paired.{AllPaired};
ghost use Rattle.fo_dir_change.specs.of_dir_put.Puts.{IsOwnedEntries, IsOwnedRecords, MayClear, StaysCalm, ClearsAlone};
ghost use Rattle.fo_dir_change.specs.Changes.{Bears, BearsNot, HasTaken};
ghost use Rattle.fo_dir_remove.specs.Removes.{IsQuiet, IsGoing, IsGone, HasPairOf};
ghost use Rattle.fo_ports.specs.Sources.{DirtiesIn};

use fo_dir_change::{clear_entry, take_record};
use fo_ports::Blocks;

/// Takes the first record of this name out of a leaf, whose bytes are at hand, and clears the first entry of its pair once the leaf is
/// settled so; or answers that the leaf has no such record.
pub fn remove_record<B: Blocks>(
    on: &mut B,
    leaf: u32,
    entries: u32,
    p: u32,
    name: &[u8],
    bytes: &mut [u8],
) -> bool
    requires owned { IsOwnedRecords (B.state on.old) leaf }
    requires entries { IsOwnedEntries (B.state on.old) entries }
    requires within { p < 102 }
    requires settled { (B.state on.old).clearing entries (2 * p) → ⊥ }
    requires may { (B.state on.old).tells → MayClear (B.state on.old) entries (2 * p) }
    requires room { 0 < (B.state on.old).room }
    requires bytes { IsLeaf bytes.old × (bytes.old ≡ ((B.state on.old).now leaf).bytes) }
    ensures taken { result ≡ true → Bears name.now (((B.state on.old).now leaf).bytes) × HasTaken name.now (((B.state on.old).now leaf).bytes) (((B.state on.new).now leaf).bytes) }
    ensures none { result ≡ false → BearsNot name.now (((B.state on.old).now leaf).bytes) × (on.new ≡ on.old) }
    ensures hand { IsLeaf bytes.new × (bytes.new ≡ ((B.state on.new).now leaf).bytes) }
    ensures entry { result ≡ true → IsGoing (B.state on.old) (B.state on.new) entries (2 * p) }
    ensures named { (leaves : List ℕ) → AllDiffer leaves (B.state on.old).may_leave → AllDiffer leaves (B.state on.new).may_leave }
    ensures once { StandOnce (B.state on.old).may_leave → StandOnce (B.state on.new).may_leave }
    ensures paired { (leaves : List ℕ) (m : ℕ) → Contains leaves leaf → HasPairOf name.now (((B.state on.old).now leaf).bytes) m p → AllDiffer leaves (B.state on.old).may_leave → (n a e : ℕ) → Contains leaves a → (e ≡ entries → n ≡ m) → AllPaired n a e (B.state on.old) → AllPaired n a e (B.state on.new) }
    ensures gone { result ≡ true → (B.state on.old).tells → (leaves : List ℕ) (m : ℕ) → Contains leaves leaf → HasPairOf name.now (((B.state on.old).now leaf).bytes) m p → AllDiffer leaves (B.state on.old).may_leave → (a : ℕ) → Contains leaves a → IsGone m p a leaf entries (B.state on.new) }
    ensures others { result ≡ true → ShowsBut leaf (B.state on.old).may_leave (B.state on.new).may_leave }
    ensures steps { result ≡ true → (b : B) × B.keeps on.old b × B.keeps b on.new × PutsBytes leaf bytes.new (B.state on.old).now (B.state b).now × StaysCalm (B.state on.old) (B.state b) × ClearsAlone entries (2 * p) (B.state b) (B.state on.new) × ((B.state b).tells → Covers (IsPointers (B.state b)) (((B.state b).now entries).slot (2 * p)) (B.state b).now (B.state on.new).now (B.state b).covered (B.state on.new).covered) }
    ensures owned_still { IsOwnedEntries (B.state on.new) entries × (((B.state on.old).tells → Reaches (B.state on.old).now (((B.state on.old).now entries).slot (2 * p)) leaf → ⊥) → IsOwnedRecords (B.state on.new) leaf) }
    ensures quiet { (i : ℕ) → i ≢ 2 * p → (B.state on.old).tells → IsQuiet (B.state on.old) entries i → IsQuiet (B.state on.new) entries i }
    ensures order { (b i : ℕ) → ((B.state on.new).clearing b i → (B.state on.old).clearing b i ⊎ ((b ≡ entries) × (i ≡ 2 * p))) × ((B.state on.old).clearing b i → (B.state on.new).clearing b i) }
    ensures later { result ≡ true → (B.state on.new).dirty leaf → ((B.state on.old).newborn leaf → ⊥) → (B.state on.new).clearing entries (2 * p) }
    ensures queues { result ≡ true → ((B.state on.old).queued ≤ (B.state on.new).queued) × ((c : ℕ) → target (((B.state on.old).now entries).slot (2 * p)) ≡ Local c → (B.state on.new).clearing entries (2 * p) ⊎ QueuesOne (B.state on.old) (B.state on.new)) }
    ensures room { result ≡ true → (B.state on.new).room + 1 ≡ (B.state on.old).room }
    ensures dirties { DirtiesIn (leaf ∷ entries ∷ []) (B.state on.old) (B.state on.new) }
    ensures keeps { B.keeps on.old on.new }
{
    if !take_record(on, leaf, name, bytes) {
        return false;
    }
    clear_entry(on, leaf, entries, 2 * p);
    true
}
