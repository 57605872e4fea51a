//! A leaf of a directory's records is made ready.
ghost use Rattle.std.specs.Prelude.{◌≡◌, ◌⊎◌, ◌+◌, ◌*◌, ◌≤◌, ℕ, true, IfOk, IfErr, IfSome, OnOk, OnErr, ◌∷◌, []};
ghost use Rattle.fo_base.specs.Cause.{Rose};
ghost use Rattle.fo_ports.specs.Causes.{Caused};
ghost use Rattle.fo_ports.specs.State.{Looks};
ghost use Rattle.fo_files_dir.specs.Dir.{IsDirAt};
ghost use Rattle.fo_files_leaf.specs.Leaf.{Readied};
ghost use Rattle.fo_files_record.specs.Leaf.{IsRecordsAt, IsEntriesAt};
ghost use Rattle.fo_files_change.specs.Records.{AltersRecords, HasLeaf, records_of};
ghost use Rattle.fo_ports.specs.Sources.{AddsDirty};

use fo_base::BLOCK;
use fo_crash::Slot;
use fo_files_dir::DirAt;
use fo_files_leaf::{LeafOf, ready_leaf};
use fo_ports::{BlockError, Blocks};
use std::alloc::Global;

/// How many ranks below a leaf of entries the leaves of records are that its entries name, and how long a directory's records may get.
pub(crate) const RECORDS_BELOW: u32 = 24;

const RECORDS_LIMIT: u64 = 1 << 40;

/// Whether the entry of a directory's records says that they have leaf `i`.
fn has_leaf<B: Blocks>(on: &B, dir: DirAt, i: u32) -> bool
    requires dir { IsDirAt (B.state on.now) dir }
    ensures { result ≡ true → HasLeaf (B.state on.now) dir i }
{
    match on.slot(dir.at, dir.slot + 1) {
        Slot::Entry(entry) => (i as u64 + 1) * BLOCK as u64 <= entry.size,
        _ => false,
    }
}

/// The tag of a directory's records; None where the number is none, or they have no leaf `i`.
fn records_tag<B: Blocks>(on: &B, dir: DirAt, i: u32) -> Option<u32>
    requires dir { IsDirAt (B.state on.now) dir }
    ensures tag { IfSome result (λ tag. tag ≡ 33 + 2 * dir.number) }
    ensures there { IfSome result (λ tag. HasLeaf (B.state on.now) dir i) }
{
    if dir.number >= 1 << 30 || !has_leaf(on, dir, i) {
        return None;
    }
    Some(33 + 2 * dir.number)
}

/// Makes leaf `i` of a directory's records ready to be changed, with its source linked, and gives its address. The block with the directory's
/// entries is damaged where the number is none, it has another entry, or that says of no leaf `i`. Where it is refused all was only looked at.
pub fn records_leaf<B: Blocks>(
    alloc: Global,
    on: &mut B,
    dir: DirAt,
    i: u32,
) -> Result<u32, BlockError>
    requires silent { (B.state on.old).tells → ⊥ }
    requires dir { IsDirAt (B.state on.old) dir }
    requires pins { 20 ≤ (B.state on.old).pins_left }
    requires spare { 10 ≤ (B.state on.old).spare }
    ensures leaf { IfOk result (IsRecordsAt (B.state on.new)) }
    ensures there { OnOk result (HasLeaf (B.state on.old) dir i) }
    ensures readied { IfOk result (λ leaf. (m : B) × Readied (B.state on.old) (B.state m) (B.state on.new) (records_of dir i) leaf) }
    ensures nothing { OnErr result (Looks (B.state on.old) (B.state on.new)) }
    ensures alters { AltersRecords dir (B.state on.old) (B.state on.new) }
    ensures dir { IsDirAt (B.state on.new) dir }
    ensures entries { (e : ℕ) → IsEntriesAt (B.state on.old) e → IsEntriesAt (B.state on.new) e }
    ensures spare { (B.state on.old).spare ≤ (B.state on.new).spare + 10 }
    ensures pins { (B.state on.old).pins_left ≤ (B.state on.new).pins_left + 20 }
    ensures room { (B.state on.new).room ≡ (B.state on.old).room }
    ensures cause { IfErr result (Caused ⊥ (λ b. (B.state on.old).is_block b ⊎ (b ≡ 1)) (Rose (B.state on.old).faults (B.state on.new).faults) (Rose (B.state on.old).arena_faults (B.state on.new).arena_faults)) }
    ensures dirties { IfOk result (λ leaf. AddsDirty 20 (dir.at ∷ []) leaf (B.state on.old) (B.state on.new)) }
    ensures keeps { B.keeps on.old on.new }
{
    let Some(tag) = records_tag(on, dir, i) else {
        return Err(BlockError::Damaged(dir.at));
    };
    let wanted = LeafOf {
        at: dir.at,
        slot: dir.slot + 1,
        is_dir: false,
        tag,
        rank: dir.rank - RECORDS_BELOW,
        limit: RECORDS_LIMIT,
        leaf: i,
    };
    match ready_leaf(alloc, on, wanted) {
        Ok(leaf) => Ok(leaf),
        Err(why) => Err(why),
    }
}
