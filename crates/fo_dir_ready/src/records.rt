//! A leaf of records is owned.
ghost use Rattle.std.specs.Prelude.{◌≡◌, ◌≢◌, ◌⊎◌, ◌+◌, ◌*◌, ◌<◌, ◌≤◌, ℕ, List, max, Some};
ghost use Rattle.fo_image.specs.declared.record.Record.{Record};
ghost use Rattle.fo_image.specs.declared.types.Pointer.{Pointer};
ghost use Rattle.fo_image.specs.declared.types.Pointer.TheVariants.{Nil, Local};
ghost use Rattle.fo_ports.specs.Alike.{KeepsAlike, stem_of};
ghost use Rattle.fo_ports.specs.Shown.{ShowsNoMore};
ghost use Rattle.fo_ports.specs.Sources.{ComesFor, Owned, Grows, Changes, MayZero, most_to_own, Dirties};
ghost use Rattle.fo_dir_read.specs.Names.{OfRecords, AreRecords, leaf_count};
ghost use Rattle.fo_dir_put.specs.Puts.{IsOwnedRecords};
ghost use Rattle.fo_dir_ready.specs.Owning.{MayOwn};

use fo_ports::{Blocks, Bytes};

/// Makes leaf `i` of the records one that may be changed, and gives its address. An added leaf has no record.
pub fn own_records<B: Blocks, S: Bytes<B>>(records: &mut S, on: &mut B, rank: u32, i: u32) -> u32
    requires over { S.is_over records.old on.old }
    requires form { OfRecords (S.form records.old) rank }
    requires may { MayOwn (S.leaves records.old on.old) (S.size records.old) i (B.state on.old) }
    requires trimmed { S.size records.old < 8192 * (i + 1) → S.is_trimmed records.old on.old }
    ensures owned { IsOwnedRecords (B.state on.new) result }
    ensures at { (S.leaves records.new on.new).at i ≡ Some result }
    ensures size { S.size records.new ≡ max (S.size records.old) (8192 * (i + 1)) }
    ensures rows { (B.state on.old).tells → (rs : List Record) → AreRecords (B.state on.old).now (S.leaves records.old on.old) (leaf_count (S.size records.old)) rs → AreRecords (B.state on.new).now (S.leaves records.new on.new) (leaf_count (S.size records.new)) rs }
    ensures owned_leaf { Owned (S.form records.old) (S.size records.old) i result (B.state on.old) (B.state on.new) (S.leaves records.old on.old) (S.leaves records.new on.new) }
    ensures over { S.is_over records.new on.new × (S.form records.new ≡ S.form records.old) }
    ensures grows { Grows (B.state on.old) (B.state on.new) (S.leaves records.old on.old) (S.leaves records.new on.new) }
    ensures current { (S.leaves records.new on.new).current }
    ensures spare { ((B.state on.old).spare ≤ (B.state on.new).spare + most_to_own (S.size records.old) i) × ((S.leaves records.old on.old).current → (B.state on.old).spare + 1 ≤ (B.state on.new).spare + most_to_own (S.size records.old) i) }
    ensures room { (B.state on.new).room ≡ (B.state on.old).room }
    ensures trimmed { (B.state on.old).tells ⊎ (S.size records.old ≤ 8192 * (i + 1)) → S.is_trimmed records.old on.old → S.is_trimmed records.new on.new }
    ensures comes { (B.state on.old).tells → (from : Pointer) → ComesFor (B.state on.old) (S.top records.old) from → ComesFor (B.state on.new) (S.top records.new) from }
    ensures only { (B.state on.old).tells → S.top records.new ≢ Nil → (y x : ℕ) → (B.state on.new).instead y x → (S.top records.new ≡ Local y) ⊎ ((B.state on.old).instead y x × (S.top records.old ≡ Local y → ⊥)) }
    ensures changes { Changes (S.form records.old).tag (S.leaves records.old on.old).owns (MayZero (S.form records.old) (S.size records.old) i (B.state on.old) (S.leaves records.old on.old)) (B.state on.old) (B.state on.new) }
    ensures dirties { Dirties (2 * most_to_own (S.size records.old) i) (λ b. b ≡ result) (B.state on.old) (B.state on.new) }
    ensures shown { ShowsNoMore (B.state on.old).may_leave (B.state on.new).may_leave }
    ensures alike { KeepsAlike (B.state on.old) (B.state on.new) (stem_of (S.form records.old) (S.size records.old) (S.top records.old)) (stem_of (S.form records.new) (S.size records.new) (S.top records.new)) }
    ensures keeps { B.keeps on.old on.new }
{
    let _ = rank;
    records.own_leaf(on, i)
}
