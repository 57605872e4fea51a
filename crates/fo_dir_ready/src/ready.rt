//! A leaf is prepared and owned.
ghost use Rattle.std.specs.Prelude.{◌≡◌, ◌≢◌, ◌⊎◌, ◌↔◌, ◌+◌, ◌*◌, ◌<◌, ◌≤◌, ℕ, List, max, Some, IfOk, IfErr, OnOk, OnErr, IsTrue};
ghost use Rattle.fo_base.specs.Cause.{Rose};
ghost use Rattle.fo_image.specs.declared.record.Record.{Record};
ghost use Rattle.fo_image.specs.declared.types.Entry.{Entry};
ghost use Rattle.fo_ports.specs.Causes.{Caused};
ghost use Rattle.fo_ports.specs.State.{Looks};
ghost use Rattle.fo_image.specs.declared.types.Pointer.{Pointer};
ghost use Rattle.fo_image.specs.declared.types.Pointer.TheVariants.{Nil, Local};
ghost use Rattle.fo_ports.specs.Alike.{KeepsAlike, stem_of};
ghost use Rattle.fo_ports.specs.Shown.{ShowsNoMore};
ghost use Rattle.fo_ports.specs.Sources.{ComesFor, Grows, SameLeaves, Lacks, most_to_own, Dirties};
ghost use Rattle.fo_dir_read.specs.Names.{OfRecords, AreRecords, leaf_count};
ghost use Rattle.fo_dir_read.specs.Pairs.{OfEntries, IsPair, IsFree, AreTaken};
ghost use Rattle.fo_dir_put.specs.Puts.{IsOwnedRecords, IsHeldEntries};
ghost use Rattle.fo_dir_ready.specs.Owning.{MayReady, IsLinked, Readies};

use crate::entries::own_entries;
use crate::records::own_records;
use fo_ports::{BlockError, Blocks, Bytes};

/// A leaf that may be changed.
#[derive(Clone, Copy, Debug)]
pub struct ReadyLeaf {
    /// Its address.
    pub at: u32,
    /// Whether it hung from block 1 when all was last settled.
    pub sealed: bool,
}

/// Prepares and owns leaf `i` of the records. Where it is refused nothing was added.
pub fn ready_records<B: Blocks, S: Bytes<B>>(
    records: &mut S,
    on: &mut B,
    rank: u32,
    i: u32,
) -> Result<ReadyLeaf, BlockError>
    requires over { S.is_over records.old on.old }
    requires form { OfRecords (S.form records.old) rank }
    requires may { MayReady (S.leaves records.old on.old) (S.size records.old) (S.form records.old).limit i (B.state on.old) }
    requires trimmed { S.size records.old < 8192 * (i + 1) → S.is_trimmed records.old on.old }
    ensures owned { IfOk result (λ leaf. IsOwnedRecords (B.state on.new) leaf.at) }
    ensures at { IfOk result (λ leaf. (S.leaves records.new on.new).at i ≡ Some leaf.at) }
    ensures sealed { IfOk result (λ leaf. IsTrue leaf.sealed ↔ (B.state on.new).sealed leaf.at) }
    ensures size { OnOk result (S.size records.new ≡ max (S.size records.old) (8192 * (i + 1))) }
    ensures nothing { OnErr result (Looks (B.state on.old) (B.state on.new) × (S.size records.new ≡ S.size records.old) × SameLeaves (B.state on.old).tells (S.leaves records.old on.old) (S.leaves records.new on.new)) }
    ensures rows { OnOk result ((B.state on.old).tells → (rs : List Record) → AreRecords (B.state on.old).now (S.leaves records.old on.old) (leaf_count (S.size records.old)) rs → AreRecords (B.state on.new).now (S.leaves records.new on.new) (leaf_count (S.size records.new)) rs) }
    ensures grows { OnOk result (Grows (B.state on.old) (B.state on.new) (S.leaves records.old on.old) (S.leaves records.new on.new)) }
    ensures current { OnOk result (S.leaves records.new on.new).current }
    ensures spare { OnOk result (((B.state on.old).spare ≤ (B.state on.new).spare + most_to_own (S.size records.old) i) × ((S.leaves records.old on.old).current → (B.state on.old).spare + 1 ≤ (B.state on.new).spare + most_to_own (S.size records.old) i)) }
    ensures room { OnOk result ((B.state on.new).room ≡ (B.state on.old).room) }
    ensures trimmed { OnOk result ((B.state on.old).tells ⊎ (S.size records.old ≤ 8192 * (i + 1)) → S.is_trimmed records.old on.old → S.is_trimmed records.new on.new) }
    ensures still_trimmed { OnErr result (S.is_trimmed records.old on.old → S.is_trimmed records.new on.new) }
    ensures comes { OnOk result ((B.state on.old).tells → (from : Pointer) → ComesFor (B.state on.old) (S.top records.old) from → ComesFor (B.state on.new) (S.top records.new) from) }
    ensures only { OnOk result ((B.state on.old).tells → S.top records.new ≢ Nil → (y x : ℕ) → (B.state on.new).instead y x → (S.top records.new ≡ Local y) ⊎ ((B.state on.old).instead y x × (S.top records.old ≡ Local y → ⊥))) }
    ensures same_top { OnErr result (S.top records.new ≡ S.top records.old) }
    ensures changes { IfOk result (λ leaf. (s : S) × (b : B) × S.is_over s b × B.keeps on.old b × B.keeps b on.new × Readies (S.form records.old) (S.size records.old) i leaf.at (B.state on.old) (B.state b) (B.state on.new) (S.leaves records.old on.old) (S.leaves s b) (S.leaves records.new on.new)) }
    ensures over { S.is_over records.new on.new × (S.form records.new ≡ S.form records.old) }
    ensures cause { IfErr result (Caused ⊥ (λ b. (((B.state on.old).tells → ⊥) × (B.state on.old).is_block b) ⊎ ((b ≡ 1) × ((B.state on.old).tells → Lacks (S.leaves records.old on.old).named (B.state on.old).held))) (Rose (B.state on.old).faults (B.state on.new).faults) (Rose (B.state on.old).arena_faults (B.state on.new).arena_faults)) }
    ensures dirties { IfOk result (λ leaf. Dirties (2 * most_to_own (S.size records.old) i) (λ b. b ≡ leaf.at) (B.state on.old) (B.state on.new)) }
    ensures shown { ShowsNoMore (B.state on.old).may_leave (B.state on.new).may_leave }
    ensures alike { OnOk result (KeepsAlike (B.state on.old) (B.state on.new) (stem_of (S.form records.old) (S.size records.old) (S.top records.old)) (stem_of (S.form records.new) (S.size records.new) (S.top records.new))) }
    ensures keeps { B.keeps on.old on.new }
{
    match records.prepare(on, 8192 * i as u64, 8192) {
        Ok(()) => {
            let at = own_records(records, on, rank, i);
            let sealed = on.sealed(at);
            Ok(ReadyLeaf { at, sealed })
        }
        Err(why) => Err(why),
    }
}

/// Prepares and owns leaf `i` of the entries. Where it is refused nothing was added.
pub fn ready_entries<B: Blocks, S: Bytes<B>>(
    entries: &mut S,
    on: &mut B,
    rank: u32,
    i: u32,
) -> Result<ReadyLeaf, BlockError>
    requires over { S.is_over entries.old on.old }
    requires form { OfEntries (S.form entries.old) rank }
    requires may { MayReady (S.leaves entries.old on.old) (S.size entries.old) (S.form entries.old).limit i (B.state on.old) }
    requires trimmed { S.size entries.old < 8192 * (i + 1) → S.is_trimmed entries.old on.old }
    requires linked { IsLinked (S.leaves entries.old on.old) (S.size entries.old) i (B.state on.old) }
    ensures held { IfOk result (λ leaf. IsHeldEntries (B.state on.new) leaf.at × (((B.state on.new).label leaf.at).epoch ≡ (B.state on.new).high)) }
    ensures at { IfOk result (λ leaf. (S.leaves entries.new on.new).at i ≡ Some leaf.at) }
    ensures sealed { IfOk result (λ leaf. IsTrue leaf.sealed ↔ (B.state on.new).sealed leaf.at) }
    ensures size { OnOk result (S.size entries.new ≡ max (S.size entries.old) (8192 * (i + 1))) }
    ensures nothing { OnErr result (Looks (B.state on.old) (B.state on.new) × (S.size entries.new ≡ S.size entries.old) × SameLeaves (B.state on.old).tells (S.leaves entries.old on.old) (S.leaves entries.new on.new)) }
    ensures pairs { OnOk result ((B.state on.old).tells → (k : ℕ) (first second : Entry) → IsPair (B.state on.old).now (S.leaves entries.old on.old) k first second → IsPair (B.state on.new).now (S.leaves entries.new on.new) k first second) }
    ensures free { OnOk result ((B.state on.old).tells → (k : ℕ) → IsFree (B.state on.old) (S.leaves entries.old on.old) (S.size entries.old) k → IsFree (B.state on.new) (S.leaves entries.new on.new) (S.size entries.new) k) }
    ensures taken { OnOk result ((B.state on.old).tells → (k : ℕ) → AreTaken (B.state on.old) (S.leaves entries.old on.old) k → AreTaken (B.state on.new) (S.leaves entries.new on.new) k) }
    ensures grows { OnOk result (Grows (B.state on.old) (B.state on.new) (S.leaves entries.old on.old) (S.leaves entries.new on.new)) }
    ensures current { OnOk result (S.leaves entries.new on.new).current }
    ensures spare { OnOk result (((B.state on.old).spare ≤ (B.state on.new).spare + most_to_own (S.size entries.old) i) × ((S.leaves entries.old on.old).current → (B.state on.old).spare + 1 ≤ (B.state on.new).spare + most_to_own (S.size entries.old) i)) }
    ensures room { OnOk result ((B.state on.new).room ≡ (B.state on.old).room) }
    ensures trimmed { OnOk result ((B.state on.old).tells ⊎ (S.size entries.old ≤ 8192 * (i + 1)) → S.is_trimmed entries.old on.old → S.is_trimmed entries.new on.new) }
    ensures still_trimmed { OnErr result (S.is_trimmed entries.old on.old → S.is_trimmed entries.new on.new) }
    ensures comes { OnOk result ((B.state on.old).tells → (from : Pointer) → ComesFor (B.state on.old) (S.top entries.old) from → ComesFor (B.state on.new) (S.top entries.new) from) }
    ensures only { OnOk result ((B.state on.old).tells → S.top entries.new ≢ Nil → (y x : ℕ) → (B.state on.new).instead y x → (S.top entries.new ≡ Local y) ⊎ ((B.state on.old).instead y x × (S.top entries.old ≡ Local y → ⊥))) }
    ensures same_top { OnErr result (S.top entries.new ≡ S.top entries.old) }
    ensures changes { IfOk result (λ leaf. (s : S) × (b : B) × S.is_over s b × B.keeps on.old b × B.keeps b on.new × Readies (S.form entries.old) (S.size entries.old) i leaf.at (B.state on.old) (B.state b) (B.state on.new) (S.leaves entries.old on.old) (S.leaves s b) (S.leaves entries.new on.new)) }
    ensures over { S.is_over entries.new on.new × (S.form entries.new ≡ S.form entries.old) }
    ensures cause { IfErr result (Caused ⊥ (λ b. (((B.state on.old).tells → ⊥) × (B.state on.old).is_block b) ⊎ ((b ≡ 1) × ((B.state on.old).tells → Lacks (S.leaves entries.old on.old).named (B.state on.old).held))) (Rose (B.state on.old).faults (B.state on.new).faults) (Rose (B.state on.old).arena_faults (B.state on.new).arena_faults)) }
    ensures dirties { IfOk result (λ leaf. Dirties (2 * most_to_own (S.size entries.old) i) (λ b. b ≡ leaf.at) (B.state on.old) (B.state on.new)) }
    ensures shown { ShowsNoMore (B.state on.old).may_leave (B.state on.new).may_leave }
    ensures alike { OnOk result (KeepsAlike (B.state on.old) (B.state on.new) (stem_of (S.form entries.old) (S.size entries.old) (S.top entries.old)) (stem_of (S.form entries.new) (S.size entries.new) (S.top entries.new))) }
    ensures keeps { B.keeps on.old on.new }
{
    match entries.prepare(on, 8192 * i as u64, 8192) {
        Ok(()) => {
            let at = own_entries(entries, on, rank, i);
            let sealed = on.sealed(at);
            Ok(ReadyLeaf { at, sealed })
        }
        Err(why) => Err(why),
    }
}
