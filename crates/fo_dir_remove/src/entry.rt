//! The second entry of a pair is cleared.
ghost use Rattle.std.specs.Prelude.{◌≡◌, ◌≢◌, ◌⊎◌, ◌+◌, ◌*◌, ◌/◌, ◌<◌, ◌≤◌, ℕ, ◌∷◌, []};
ghost use Rattle.fo_image.specs.declared.types.Pointer.TheVariants.{Local};
ghost use Rattle.fo_crash.specs.Images.{target};
ghost use Rattle.fo_crash.specs.Steps.{Covers, cleared};
ghost use Rattle.fo_ports.specs.State.{IsPointers, QueuesOne};
ghost use Rattle.fo_dir_change.specs.of_shown.Shown.{ShowsNoMore};
ghost use Rattle.fo_dir_change.specs.of_dir_put.Names.{ShowsBytes};
ghost use Rattle.fo_dir_change.specs.of_dir_put.Paired.{AllPaired};
ghost use Rattle.fo_dir_change.specs.of_dir_put.Puts.{IsOwnedEntries, IsOwnedRecords, ClearsAlone};
ghost use Rattle.fo_dir_remove.specs.Removes.{IsQuiet, IsGoing, NoneHas, IsGone};
ghost use Rattle.fo_ports.specs.Sources.{DirtiesIn};

use fo_dir_change::clear_entry;
use fo_ports::Blocks;

/// Clears an entry at once, whose pair no record of any image has.
fn clear_unnamed<B: Blocks>(on: &mut B, entries: u32, j: u32)
    requires entries { IsOwnedEntries (B.state on.old) entries }
    requires within { j < 204 }
    requires settled { (B.state on.old).clearing entries j → ⊥ }
    requires quiet { (B.state on.old).tells → IsQuiet (B.state on.old) entries j }
    requires room { 0 < (B.state on.old).room }
    ensures entry { IsGoing (B.state on.old) (B.state on.new) entries j }
    ensures paired { (n a e : ℕ) → (e ≡ entries → NoneHas n (j / 2) a (B.state on.old).may_leave) → AllPaired n a e (B.state on.old) → AllPaired n a e (B.state on.new) }
    ensures shows { ShowsBytes (B.state on.old).may_leave (B.state on.new).may_leave }
    ensures shown { ShowsNoMore (B.state on.old).may_leave (B.state on.new).may_leave }
    ensures alone { ClearsAlone entries j (B.state on.old) (B.state on.new) }
    ensures covers { (B.state on.old).tells → Covers (IsPointers (B.state on.old)) (((B.state on.old).now entries).slot j) (B.state on.old).now (B.state on.new).now (B.state on.old).covered (B.state on.new).covered }
    ensures order { (b i : ℕ) → ((B.state on.new).clearing b i → (B.state on.old).clearing b i ⊎ ((b ≡ entries) × (i ≡ j))) × ((B.state on.old).clearing b i → (B.state on.new).clearing b i) }
    ensures dirty { (b : ℕ) → (B.state on.new).dirty b → (B.state on.old).dirty b ⊎ (b ≡ entries) }
    ensures queues { ((B.state on.old).queued ≤ (B.state on.new).queued) × ((c : ℕ) → target (((B.state on.old).now entries).slot j) ≡ Local c → (B.state on.new).clearing entries j ⊎ QueuesOne (B.state on.old) (B.state on.new)) }
    ensures room { (B.state on.new).room + 1 ≡ (B.state on.old).room }
    ensures dirties { DirtiesIn (entries ∷ []) (B.state on.old) (B.state on.new) }
    ensures keeps { B.keeps on.old on.new }
{
    on.remove_slot(entries, j, None);
}

/// Clears the second entry of a pair after its first, which no record of the leaf in memory names: once the leaf is settled where the
/// first waits for that, else at once.
pub fn clear_second<B: Blocks>(on: &mut B, leaf: u32, entries: u32, p: u32)
    requires owned { IsOwnedRecords (B.state on.old) leaf }
    requires entries { IsOwnedEntries (B.state on.old) entries }
    requires within { p < 102 }
    requires settled { (B.state on.old).clearing entries (2 * p + 1) → ⊥ }
    requires quiet { (B.state on.old).tells → (B.state on.old).sealed entries × IsQuiet (B.state on.old) entries (2 * p + 1) }
    requires room { 0 < (B.state on.old).room }
    ensures entry { IsGoing (B.state on.old) (B.state on.new) entries (2 * p + 1) }
    ensures paired { (n a e : ℕ) → (e ≡ entries → IsGone n p a leaf entries (B.state on.old)) → AllPaired n a e (B.state on.old) → AllPaired n a e (B.state on.new) }
    ensures shows { ShowsBytes (B.state on.old).may_leave (B.state on.new).may_leave }
    ensures shown { ShowsNoMore (B.state on.old).may_leave (B.state on.new).may_leave }
    ensures alone { ClearsAlone entries (2 * p + 1) (B.state on.old) (B.state on.new) }
    ensures covers { (B.state on.old).tells → Covers (IsPointers (B.state on.old)) (((B.state on.old).now entries).slot (2 * p + 1)) (B.state on.old).now (B.state on.new).now (B.state on.old).covered (B.state on.new).covered }
    ensures order { (b i : ℕ) → ((B.state on.new).clearing b i → (B.state on.old).clearing b i ⊎ ((b ≡ entries) × (i ≡ 2 * p + 1))) × ((B.state on.old).clearing b i → (B.state on.new).clearing b i) }
    ensures later { (B.state on.old).clearing entries (2 * p) → (B.state on.old).dirty leaf → ((B.state on.old).newborn leaf → ⊥) → (B.state on.new).clearing entries (2 * p + 1) }
    ensures dirty { (b : ℕ) → (B.state on.new).dirty b → (B.state on.old).dirty b ⊎ (b ≡ entries) }
    ensures queues { ((B.state on.old).queued ≤ (B.state on.new).queued) × ((c : ℕ) → target (((B.state on.old).now entries).slot (2 * p + 1)) ≡ Local c → (B.state on.new).clearing entries (2 * p + 1) ⊎ QueuesOne (B.state on.old) (B.state on.new)) }
    ensures room { (B.state on.new).room + 1 ≡ (B.state on.old).room }
    ensures dirties { DirtiesIn (entries ∷ []) (B.state on.old) (B.state on.new) }
    ensures keeps { B.keeps on.old on.new }
{
    if on.is_clearing(entries, 2 * p) {
        clear_entry(on, leaf, entries, 2 * p + 1);
    } else {
        clear_unnamed(on, entries, 2 * p + 1);
    }
}
