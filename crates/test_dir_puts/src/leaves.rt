//! New leaves of records and of entries, over any blocks that tell nothing.
ghost use Rattle.std.specs.Prelude.{◌≡◌, ◌≢◌, ◌+◌, ◌^◌, ◌<◌, ◌≤◌, ℕ, [], true};
ghost use Rattle.fo_image.specs.Record.{RecordHolds};
ghost use Rattle.fo_meta.specs.Leaf.{IsLeaf, SpellsLeaf};
ghost use Rattle.fo_dir_change.specs.Changes.{Bears, IsFirstOf};
ghost use Rattle.fo_dir_put.specs.Puts.{IsOwnedEntries, IsOwnedRecords};

use fo_dir_add::{Outcome, add_new};
use fo_dir_put::change_leaf;
use fo_image::{Kind, Record};
use fo_ports::Blocks;

/// The rank of the records of the root directory.
pub const RANK: u32 = 2096;

/// Two leaves of records, and one of entries.
#[derive(Clone, Copy)]
pub struct Leaves {
    pub from: u32,
    pub to: u32,
    pub entries: u32,
}

/// New leaves.
pub fn new_leaves<B: Blocks>(on: &mut B) -> Leaves
    requires spare { 3 ≤ (B.state on.old).spare }
    requires untold { (b : B) → (B.state b).tells → ⊥ }
    ensures from { IsOwnedRecords (B.state on.new) result.from }
    ensures to { IsOwnedRecords (B.state on.new) result.to }
    ensures entries { IsOwnedEntries (B.state on.new) result.entries }
    ensures differ { result.from ≢ result.to }
    ensures blocks { (B.state on.new).is_block result.from × (B.state on.new).is_block result.to }
    ensures room { (B.state on.new).room ≡ (B.state on.old).room }
{
    let from = on.new_block(Kind::Data(0), 33, RANK);
    let to = on.new_block(Kind::Data(0), 33, RANK);
    let entries = on.new_block(Kind::Dir(0), 32, 2088);
    Leaves { from, to, entries }
}

/// Puts bytes into the first leaf, and adds a record with pair 7 of the entries. Whether it was added.
pub fn add<B: Blocks>(on: &mut B, at: Leaves, named: &mut Record, bytes: &mut [u8]) -> bool
    requires from { IsOwnedRecords (B.state on.old) at.from }
    requires to { IsOwnedRecords (B.state on.old) at.to }
    requires entries { IsOwnedEntries (B.state on.old) at.entries }
    requires differ { at.from ≢ at.to }
    requires untold { (b : B) → (B.state b).tells → ⊥ }
    requires room { 0 < (B.state on.old).room }
    requires number { named.old.number < 2 ^ 30 }
    requires spelled { RecordHolds named.old }
    requires bytes { IsLeaf bytes.old }
    ensures from { result ≡ true → IsOwnedRecords (B.state on.new) at.from }
    ensures to { result ≡ true → IsOwnedRecords (B.state on.new) at.to }
    ensures entries { result ≡ true → IsOwnedEntries (B.state on.new) at.entries }
    ensures hand { result ≡ true → IsLeaf bytes.new × (bytes.new ≡ ((B.state on.new).now at.from).bytes) }
    ensures room { result ≡ true → (B.state on.new).room + 1 ≡ (B.state on.old).room }
    ensures bears { result ≡ true → Bears named.new.name (((B.state on.new).now at.from).bytes) }
    ensures first { result ≡ true → SpellsLeaf [] bytes.old → IsFirstOf named.new.name (((B.state on.new).now at.from).bytes) named.new }
    ensures holds { RecordHolds named.new }
    ensures others { result ≡ true → (b : ℕ) → b ≢ at.from → ((B.state on.new).now b).bytes ≡ ((B.state on.old).now b).bytes }
    ensures keeps { B.keeps on.old on.new }
{
    change_leaf(on, at.from, bytes);
    match add_new(on, at.from, at.entries, 0, 7, named, bytes) {
        Outcome::Added => true,
        Outcome::Taken => false,
        Outcome::NoRoom => false,
    }
}
