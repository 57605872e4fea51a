//! A leaf of entries is owned.
ghost use Rattle.std.specs.Prelude.{◌≡◌, ◌≢◌, ◌⊎◌, ◌+◌, ◌*◌, ◌<◌, ◌≤◌, ℕ, max, Some};
ghost use Rattle.fo_image.specs.declared.types.Entry.{Entry};
ghost use Rattle.fo_image.specs.declared.types.Pointer.{Pointer};
ghost use Rattle.fo_image.specs.declared.types.Pointer.TheVariants.{Nil, Local};
ghost use Rattle.fo_ports.specs.Alike.{KeepsAlike, stem_of};
ghost use Rattle.fo_ports.specs.Shown.{ShowsNoMore};
ghost use Rattle.fo_ports.specs.Sources.{ComesFor, Owned, Grows, Changes, MayZero, most_to_own, Dirties};
ghost use Rattle.fo_dir_read.specs.Pairs.{OfEntries, IsPair, IsFree, AreTaken};
ghost use Rattle.fo_dir_put.specs.Puts.{IsHeldEntries};
ghost use Rattle.fo_dir_ready.specs.Entries.{SameEntries};
ghost use Rattle.fo_dir_ready.specs.Owning.{MayOwn, IsLinked};

use fo_ports::{Blocks, Bytes};

/// Owns a leaf: each leaf keeps its entries, and an added one has none in use.
fn own_kept<B: Blocks, S: Bytes<B>>(entries: &mut S, on: &mut B, rank: u32, i: u32) -> u32
    requires over { S.is_over entries.old on.old }
    requires form { OfEntries (S.form entries.old) rank }
    requires may { MayOwn (S.leaves entries.old on.old) (S.size entries.old) i (B.state on.old) }
    requires trimmed { S.size entries.old < 8192 * (i + 1) → S.is_trimmed entries.old on.old }
    requires linked { IsLinked (S.leaves entries.old on.old) (S.size entries.old) i (B.state on.old) }
    ensures held { IsHeldEntries (B.state on.new) result }
    ensures epoch { ((B.state on.new).label result).epoch ≡ (B.state on.new).high }
    ensures at { (S.leaves entries.new on.new).at i ≡ Some result }
    ensures size { S.size entries.new ≡ max (S.size entries.old) (8192 * (i + 1)) }
    ensures same { (B.state on.old).tells → (j : ℕ) → SameEntries (B.state on.old) (B.state on.new) (S.leaves entries.old on.old) (S.leaves entries.new on.new) j }
    ensures owned_leaf { Owned (S.form entries.old) (S.size entries.old) i result (B.state on.old) (B.state on.new) (S.leaves entries.old on.old) (S.leaves entries.new on.new) }
    ensures over { S.is_over entries.new on.new × (S.form entries.new ≡ S.form entries.old) }
    ensures grows { Grows (B.state on.old) (B.state on.new) (S.leaves entries.old on.old) (S.leaves entries.new on.new) }
    ensures current { (S.leaves entries.new on.new).current }
    ensures spare { ((B.state on.old).spare ≤ (B.state on.new).spare + most_to_own (S.size entries.old) i) × ((S.leaves entries.old on.old).current → (B.state on.old).spare + 1 ≤ (B.state on.new).spare + most_to_own (S.size entries.old) i) }
    ensures room { (B.state on.new).room ≡ (B.state on.old).room }
    ensures trimmed { (B.state on.old).tells ⊎ (S.size entries.old ≤ 8192 * (i + 1)) → S.is_trimmed entries.old on.old → S.is_trimmed entries.new on.new }
    ensures comes { (B.state on.old).tells → (from : Pointer) → ComesFor (B.state on.old) (S.top entries.old) from → ComesFor (B.state on.new) (S.top entries.new) from }
    ensures only { (B.state on.old).tells → S.top entries.new ≢ Nil → (y x : ℕ) → (B.state on.new).instead y x → (S.top entries.new ≡ Local y) ⊎ ((B.state on.old).instead y x × (S.top entries.old ≡ Local y → ⊥)) }
    ensures changes { Changes (S.form entries.old).tag (S.leaves entries.old on.old).owns (MayZero (S.form entries.old) (S.size entries.old) i (B.state on.old) (S.leaves entries.old on.old)) (B.state on.old) (B.state on.new) }
    ensures dirties { Dirties (2 * most_to_own (S.size entries.old) i) (λ b. b ≡ result) (B.state on.old) (B.state on.new) }
    ensures shown { ShowsNoMore (B.state on.old).may_leave (B.state on.new).may_leave }
    ensures alike { KeepsAlike (B.state on.old) (B.state on.new) (stem_of (S.form entries.old) (S.size entries.old) (S.top entries.old)) (stem_of (S.form entries.new) (S.size entries.new) (S.top entries.new)) }
    ensures keeps { B.keeps on.old on.new }
{
    let _ = rank;
    entries.own_leaf(on, i)
}

/// Makes leaf `i` of the entries one that may be changed, and gives its address. Each pair of an added leaf is free.
pub fn own_entries<B: Blocks, S: Bytes<B>>(entries: &mut S, on: &mut B, rank: u32, i: u32) -> u32
    requires over { S.is_over entries.old on.old }
    requires form { OfEntries (S.form entries.old) rank }
    requires may { MayOwn (S.leaves entries.old on.old) (S.size entries.old) i (B.state on.old) }
    requires trimmed { S.size entries.old < 8192 * (i + 1) → S.is_trimmed entries.old on.old }
    requires linked { IsLinked (S.leaves entries.old on.old) (S.size entries.old) i (B.state on.old) }
    ensures held { IsHeldEntries (B.state on.new) result }
    ensures epoch { ((B.state on.new).label result).epoch ≡ (B.state on.new).high }
    ensures at { (S.leaves entries.new on.new).at i ≡ Some result }
    ensures size { S.size entries.new ≡ max (S.size entries.old) (8192 * (i + 1)) }
    ensures pairs { (B.state on.old).tells → (k : ℕ) (first second : Entry) → IsPair (B.state on.old).now (S.leaves entries.old on.old) k first second → IsPair (B.state on.new).now (S.leaves entries.new on.new) k first second }
    ensures free { (B.state on.old).tells → (k : ℕ) → IsFree (B.state on.old) (S.leaves entries.old on.old) (S.size entries.old) k → IsFree (B.state on.new) (S.leaves entries.new on.new) (S.size entries.new) k }
    ensures taken { (B.state on.old).tells → (k : ℕ) → AreTaken (B.state on.old) (S.leaves entries.old on.old) k → AreTaken (B.state on.new) (S.leaves entries.new on.new) k }
    ensures owned_leaf { Owned (S.form entries.old) (S.size entries.old) i result (B.state on.old) (B.state on.new) (S.leaves entries.old on.old) (S.leaves entries.new on.new) }
    ensures over { S.is_over entries.new on.new × (S.form entries.new ≡ S.form entries.old) }
    ensures grows { Grows (B.state on.old) (B.state on.new) (S.leaves entries.old on.old) (S.leaves entries.new on.new) }
    ensures current { (S.leaves entries.new on.new).current }
    ensures spare { ((B.state on.old).spare ≤ (B.state on.new).spare + most_to_own (S.size entries.old) i) × ((S.leaves entries.old on.old).current → (B.state on.old).spare + 1 ≤ (B.state on.new).spare + most_to_own (S.size entries.old) i) }
    ensures room { (B.state on.new).room ≡ (B.state on.old).room }
    ensures trimmed { (B.state on.old).tells ⊎ (S.size entries.old ≤ 8192 * (i + 1)) → S.is_trimmed entries.old on.old → S.is_trimmed entries.new on.new }
    ensures comes { (B.state on.old).tells → (from : Pointer) → ComesFor (B.state on.old) (S.top entries.old) from → ComesFor (B.state on.new) (S.top entries.new) from }
    ensures only { (B.state on.old).tells → S.top entries.new ≢ Nil → (y x : ℕ) → (B.state on.new).instead y x → (S.top entries.new ≡ Local y) ⊎ ((B.state on.old).instead y x × (S.top entries.old ≡ Local y → ⊥)) }
    ensures changes { Changes (S.form entries.old).tag (S.leaves entries.old on.old).owns (MayZero (S.form entries.old) (S.size entries.old) i (B.state on.old) (S.leaves entries.old on.old)) (B.state on.old) (B.state on.new) }
    ensures dirties { Dirties (2 * most_to_own (S.size entries.old) i) (λ b. b ≡ result) (B.state on.old) (B.state on.new) }
    ensures shown { ShowsNoMore (B.state on.old).may_leave (B.state on.new).may_leave }
    ensures alike { KeepsAlike (B.state on.old) (B.state on.new) (stem_of (S.form entries.old) (S.size entries.old) (S.top entries.old)) (stem_of (S.form entries.new) (S.size entries.new) (S.top entries.new)) }
    ensures keeps { B.keeps on.old on.new }
{
    own_kept(entries, on, rank, i)
}
