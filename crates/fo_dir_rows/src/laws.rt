//! The list of the records.
ghost use Rattle.std.specs.Prelude.{◌≡◌, ◌≢◌, ◌⊎◌, ◌+◌, ◌*◌, ◌<◌, ◌≤◌, ℕ, List, length, Some};
ghost use Rattle.fo_image.specs.declared.record.Record.{Record};
ghost use Rattle.fo_image.specs.declared.types.Entry.{Entry};
ghost use Rattle.fo_image.specs.declared.types.Kind.TheVariants.{Dir};
ghost use Rattle.fo_meta.specs.Leaf.{SpellsLeaf};
ghost use Rattle.fo_crash.specs.declared.slot.Slot.TheVariants.{Entry as Head};
ghost use Rattle.fo_crash.specs.Images.{Reaches, to_block};
ghost use Rattle.fo_crash.specs.Steps.{Covers};
ghost use Rattle.fo_ports.specs.State.{IsDoomed, IsPointers};
ghost use Rattle.fo_dir_put.specs.Puts.{StaysCalm, ClearsAlone};
ghost use Rattle.fo_dir_read.specs.Names.{HasRecords, AreRecords, leaf_count};
ghost use Rattle.fo_dir_read.specs.Pairs.{IsPair};
ghost use Rattle.fo_dir_move.specs.Moves.{MovesAlone};
ghost use Rattle.fo_dir_rows.specs.Rows.{ChangesLeaf, HasRow, HasRows};

use fo_ports::{Blocks, Bytes};

/// Where one leaf of the records was changed, the list of all is as it was but for the records of this leaf.
pub fn leaf_rows<B: Blocks, S: Bytes<B>>(records: &S, before: &B, after: &B, i: u32, at: u32)
    requires over { S.is_over records.now before.now }
    requires keeps { B.keeps before.now after.now }
    requires leaf { (S.leaves records.now before.now).at i ≡ Some at }
    requires within { 8192 * (i + 1) ≤ S.size records.now }
    requires changes { ChangesLeaf at (B.state before.now) (B.state after.now) }
    ensures over { S.is_over records.now after.now }
    ensures rows { (B.state before.now).tells → (all was is : List Record) → AreRecords (B.state before.now).now (S.leaves records.now before.now) (leaf_count (S.size records.now)) all → HasRecords (B.state before.now).now (S.leaves records.now before.now) i was → SpellsLeaf is (((B.state after.now).now at).bytes) → HasRow (B.state after.now).now (S.leaves records.now after.now) (leaf_count (S.size records.now)) all was is }
{}

/// Where an entry was cleared, or waits for it, the list of the records is as it was: those of a directory don't hang below an entry of
/// their own directory.
pub fn entry_rows<B: Blocks, S: Bytes<B>>(records: &S, before: &B, after: &B, at: u32, j: u32)
    requires over { S.is_over records.now before.now }
    requires keeps { B.keeps before.now after.now }
    requires kind { ((B.state before.now).label at).kind ≡ Dir 0 }
    requires alone { ClearsAlone at j (B.state before.now) (B.state after.now) }
    requires covers { (B.state before.now).tells → Covers (IsPointers (B.state before.now)) (((B.state before.now).now at).slot j) (B.state before.now).now (B.state after.now).now (B.state before.now).covered (B.state after.now).covered }
    requires aside { (B.state before.now).tells → (x : ℕ) → (S.leaves records.now before.now).owns x → Reaches (B.state before.now).now (((B.state before.now).now at).slot j) x → ⊥ }
    requires linked { (B.state before.now).tells → (x : ℕ) → (S.leaves records.now before.now).owns x → Reaches (B.state before.now).now (to_block 1) x }
    ensures over { S.is_over records.now after.now }
    ensures rows { (B.state before.now).tells → (all : List Record) → AreRecords (B.state before.now).now (S.leaves records.now before.now) (leaf_count (S.size records.now)) all → AreRecords (B.state after.now).now (S.leaves records.now after.now) (leaf_count (S.size records.now)) all }
{}

/// Where the entries of one pair of a leaf were put, each other pair of the source is what it was.
pub fn pair_rows<B: Blocks, S: Bytes<B>>(
    entries: &S,
    before: &B,
    after: &B,
    i: u32,
    at: u32,
    p: u32,
)
    requires over { S.is_over entries.now before.now }
    requires keeps { B.keeps before.now after.now }
    requires leaf { (S.leaves entries.now before.now).at i ≡ Some at }
    requires within { p < 102 }
    requires kind { ((B.state before.now).label at).kind ≡ Dir 0 }
    requires calm { StaysCalm (B.state before.now) (B.state after.now) }
    requires slots { (b j : ℕ) → (b ≢ at) ⊎ ((j ≢ 2 * p) × (j ≢ 2 * p + 1)) → ((B.state after.now).now b).slot j ≡ ((B.state before.now).now b).slot j }
    requires bytes { (B.state before.now).tells → (x : ℕ) → (S.leaves entries.now before.now).owns x → ((B.state after.now).now x).bytes ≡ ((B.state before.now).now x).bytes }
    requires linked { (B.state before.now).tells → (x : ℕ) → (S.leaves entries.now before.now).owns x → Reaches (B.state before.now).now (to_block 1) x }
    ensures over { S.is_over entries.now after.now }
    ensures pair { (B.state before.now).tells → (first second : Entry) → ((B.state after.now).now at).slot (2 * p) ≡ Head first → ((B.state after.now).now at).slot (2 * p + 1) ≡ Head second → IsPair (B.state after.now).now (S.leaves entries.now after.now) (102 * i + p) first second }
    ensures others { (B.state before.now).tells → (k : ℕ) (first second : Entry) → k ≢ 102 * i + p → IsPair (B.state before.now).now (S.leaves entries.now before.now) k first second → IsPair (B.state after.now).now (S.leaves entries.now after.now) k first second }
{}

/// Where a record moved to another leaf, or was put back, the list of all is as it was but for the records of the two leaves.
pub fn move_rows<B: Blocks, S: Bytes<B>>(
    records: &S,
    before: &B,
    after: &B,
    i: u32,
    j: u32,
    from: u32,
    to: u32,
)
    requires over { S.is_over records.now before.now }
    requires keeps { B.keeps before.now after.now }
    requires differ { i ≢ j }
    requires leaves { ((S.leaves records.now before.now).at i ≡ Some from) × ((S.leaves records.now before.now).at j ≡ Some to) }
    requires within { (8192 * (i + 1) ≤ S.size records.now) × (8192 * (j + 1) ≤ S.size records.now) }
    requires alone { MovesAlone from to (B.state before.now) (B.state after.now) }
    requires whole { (length (((B.state after.now).now from).bytes) ≡ length (((B.state before.now).now from).bytes)) × (length (((B.state after.now).now to).bytes) ≡ length (((B.state before.now).now to).bytes)) }
    requires spared { (B.state before.now).tells → (x : ℕ) → (S.leaves records.now before.now).owns x → IsDoomed (B.state before.now) x → ⊥ }
    requires linked { (B.state before.now).tells → (x : ℕ) → (S.leaves records.now before.now).owns x → Reaches (B.state before.now).now (to_block 1) x }
    ensures over { S.is_over records.now after.now }
    ensures rows { (B.state before.now).tells → (all was is were are_now : List Record) → AreRecords (B.state before.now).now (S.leaves records.now before.now) (leaf_count (S.size records.now)) all → HasRecords (B.state before.now).now (S.leaves records.now before.now) i was → HasRecords (B.state before.now).now (S.leaves records.now before.now) j were → SpellsLeaf is (((B.state after.now).now from).bytes) → SpellsLeaf are_now (((B.state after.now).now to).bytes) → HasRows (B.state after.now).now (S.leaves records.now after.now) (leaf_count (S.size records.now)) all was is were are_now }
{}
